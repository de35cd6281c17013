// Written by scripts/state_key_files.py.
ghost use Rattle.key_file_examples.specs.Operations1.{Operations1};
ghost use Rattle.key_file_examples.specs.Operations2.{Operations2};
ghost use Rattle.key_file_examples.specs.Operations3.{Operations3};
ghost use Rattle.key_file_examples.specs.Operations4.{Operations4};
ghost use Rattle.key_file_examples.specs.Operations5.{Operations5};
ghost use Rattle.key_file_examples.specs.Operations6.{Operations6};
ghost use Rattle.key_file_examples.specs.Operations7.{Operations7};
ghost use Rattle.key_file_examples.specs.Operations8.{Operations8};
ghost use Rattle.key_file_examples.specs.Operations9.{Operations9};
ghost use Rattle.key_file_examples.specs.Operations10.{Operations10};
ghost use Rattle.key_file_examples.specs.Operations11.{Operations11};
ghost use Rattle.key_file_examples.specs.Operations12.{Operations12};
ghost use Rattle.key_file_examples.specs.Operations13.{Operations13};
ghost use Rattle.key_file_examples.specs.Operations14.{Operations14};
ghost use Rattle.key_file_examples.specs.Operations15.{Operations15};
ghost use Rattle.key_file_examples.specs.Programs1.{Programs1};
ghost use Rattle.key_file_examples.specs.Programs2.{Programs2};
ghost use Rattle.key_file_examples.specs.Programs3.{Programs3};
ghost use Rattle.key_file_examples.specs.Programs4.{Programs4};
ghost use Rattle.key_file_examples.specs.Corners1.{Corners1};
ghost use Rattle.key_file_examples.specs.Corners2.{Corners2};
ghost use Rattle.key_file_examples.specs.Corners3.{Corners3};
ghost use Rattle.key_file_examples.specs.Corners4.{Corners4};
ghost use Rattle.key_file_examples.specs.Corners5.{Corners5};
ghost use Rattle.key_file_examples.specs.Corners6.{Corners6};
ghost use Rattle.key_file_examples.specs.Corners7.{Corners7};
ghost use Rattle.key_file_examples.specs.Corners8.{Corners8};
ghost use Rattle.key_file_examples.specs.Corners9.{Corners9};
ghost use Rattle.key_file_examples.specs.Corners10.{Corners10};
ghost use Rattle.key_file_examples.specs.Large1.{Large1};
ghost use Rattle.key_file_examples.specs.Large2.{Large2};
ghost use Rattle.key_file_examples.specs.Large3.{Large3};
ghost use Rattle.key_file_examples.specs.Large4.{Large4};
ghost use Rattle.key_file_examples.specs.Teaching1.{Teaching1};

/// The definitions print what these key files are said to print.
pub fn operations1()
    ensures { Operations1 }
{}

/// The definitions print what these key files are said to print.
pub fn operations2()
    ensures { Operations2 }
{}

/// The definitions print what these key files are said to print.
pub fn operations3()
    ensures { Operations3 }
{}

/// The definitions print what these key files are said to print.
pub fn operations4()
    ensures { Operations4 }
{}

/// The definitions print what these key files are said to print.
pub fn operations5()
    ensures { Operations5 }
{}

/// The definitions print what these key files are said to print.
pub fn operations6()
    ensures { Operations6 }
{}

/// The definitions print what these key files are said to print.
pub fn operations7()
    ensures { Operations7 }
{}

/// The definitions print what these key files are said to print.
pub fn operations8()
    ensures { Operations8 }
{}

/// The definitions print what these key files are said to print.
pub fn operations9()
    ensures { Operations9 }
{}

/// The definitions print what these key files are said to print.
pub fn operations10()
    ensures { Operations10 }
{}

/// The definitions print what these key files are said to print.
pub fn operations11()
    ensures { Operations11 }
{}

/// The definitions print what these key files are said to print.
pub fn operations12()
    ensures { Operations12 }
{}

/// The definitions print what these key files are said to print.
pub fn operations13()
    ensures { Operations13 }
{}

/// The definitions print what these key files are said to print.
pub fn operations14()
    ensures { Operations14 }
{}

/// The definitions print what these key files are said to print.
pub fn operations15()
    ensures { Operations15 }
{}

/// The definitions print what these key files are said to print.
pub fn programs1()
    ensures { Programs1 }
{}

/// The definitions print what these key files are said to print.
pub fn programs2()
    ensures { Programs2 }
{}

/// The definitions print what these key files are said to print.
pub fn programs3()
    ensures { Programs3 }
{}

/// The definitions print what these key files are said to print.
pub fn programs4()
    ensures { Programs4 }
{}

/// The definitions print what these key files are said to print.
pub fn corners1()
    ensures { Corners1 }
{}

/// The definitions print what these key files are said to print.
pub fn corners2()
    ensures { Corners2 }
{}

/// The definitions print what these key files are said to print.
pub fn corners3()
    ensures { Corners3 }
{}

/// The definitions print what these key files are said to print.
pub fn corners4()
    ensures { Corners4 }
{}

/// The definitions print what these key files are said to print.
pub fn corners5()
    ensures { Corners5 }
{}

/// The definitions print what these key files are said to print.
pub fn corners6()
    ensures { Corners6 }
{}

/// The definitions print what these key files are said to print.
pub fn corners7()
    ensures { Corners7 }
{}

/// The definitions print what these key files are said to print.
pub fn corners8()
    ensures { Corners8 }
{}

/// The definitions print what these key files are said to print.
pub fn corners9()
    ensures { Corners9 }
{}

/// The definitions print what these key files are said to print.
pub fn corners10()
    ensures { Corners10 }
{}

/// The definitions print what these key files are said to print.
pub fn large1()
    ensures { Large1 }
{}

/// The definitions print what these key files are said to print.
pub fn large2()
    ensures { Large2 }
{}

/// The definitions print what these key files are said to print.
pub fn large3()
    ensures { Large3 }
{}

/// The definitions print what these key files are said to print.
pub fn large4()
    ensures { Large4 }
{}

/// The definitions print what these key files are said to print.
pub fn teaching1()
    ensures { Teaching1 }
{}
