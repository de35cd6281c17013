//! What a command gives to whoever called it: the status, whose number the program ends with, and
//! what is kept beside the text that was written.
ghost use Rattle.std.specs.Prelude.{◌≡◌, is_ok, if◌then◌else◌};
ghost use Rattle.hp16c_commands.specs.Outcomes.{number_of};

use hp_asm::Routine;
use hp_io::Failed;
use jd_cert::Cert;
use jd_judge::{Book, Leaf, Path, Starts};
use jd_logic::{BadLine, Log};
use jd_problem::Start;
use jd_short::Refusals;

/// How a command ends. The program ends with the status's number.
#[derive(Clone, Copy, Debug, PartialEq, Eq)]
pub enum Status {
    /// The command's good answer is written.
    Done,
    /// The two routines don't agree from a start: the one that `replay` was given, or that `judge` found.
    /// `spec` found one from which the routine doesn't give what it is to give, and `short` one from which
    /// the routine doesn't agree with itself.
    Different,
    /// `judge`, `spec`, `short`: a question that the budget of lines didn't decide.
    Unknown,
    /// The words are no command.
    Usage,
    /// The input isn't in the command's grammar.
    BadInput,
    /// The input has more bytes than the command takes.
    Limit,
    /// A read failed.
    ReadFault,
    /// A write failed.
    WriteFault,
    /// Memory was refused.
    NoMemory,
    /// A proof or a certificate has a line that isn't right, or doesn't refute its clauses, or a
    /// certificate doesn't cover every path.
    CertRefused,
    /// `judge`, `spec`, `short`: there are more paths than are allowed.
    TooManyPaths,
}

impl Status {
    /// The number with which the program ends.
    pub fn number(self) -> u8
        ensures { result ≡ number_of self }
    {
        match self {
            Status::Done => 0,
            Status::Different => 1,
            Status::Unknown => 2,
            Status::Usage => 3,
            Status::BadInput => 4,
            Status::Limit => 5,
            Status::ReadFault => 6,
            Status::WriteFault => 7,
            Status::NoMemory => 8,
            Status::CertRefused => 9,
            Status::TooManyPaths => 10,
        }
    }

    /// The status where a last text was to be written.
    pub fn after(self, written: Result<(), Failed>) -> Status
        ensures { result ≡ (if is_ok written then self else Status.WriteFault) }
    {
        match written {
            Ok(()) => self,
            Err(Failed) => Status::WriteFault,
        }
    }
}

/// What a command keeps beside the text that it writes.
#[derive(Drop)]
pub enum Kept {
    Nothing,
    /// Of `judge` and `gen`: the leaves and the certificate by which the two routines agree. Of `spec`:
    /// those by which the routine gives what it is to give.
    Judged(Book, Cert),
    /// Of `short`: a routine that came from the problem's first one by replacements, the leaves and the
    /// certificate by which the two agree, and why no further piece was replaced.
    Short {
        routine: Routine,
        book: Book,
        cert: Cert,
        refusals: Refusals,
    },
    /// Of `check`: the leaves by which the certificate that was read shows that they agree.
    Checked(Book),
    /// An allowed start from which the two routines don't agree, or the one routine doesn't give what it is
    /// to give.
    Start(Start),
    /// The leaf that the budget didn't decide, and the lines that it took.
    Log(Leaf, Log),
    /// One more allowed start than there may be paths, each with answers of its own.
    Starts(Starts),
    /// The first path at which the certificate's tree doesn't cover.
    Shape(Path),
    /// The first line of a covering certificate that isn't right, counted from 1 in its leaf or cut.
    Refused {
        book: Book,
        path: Path,
        line: u64,
        cause: BadLine,
    },
    /// The first leaf or cut that isn't refuted, where the tree covers and every line is right.
    More {
        book: Book,
        path: Path,
    },
    /// The first line of a proof that isn't right, counted from 1, and its cause.
    Proof {
        line: u64,
        cause: BadLine,
    },
}

/// The status of a command, and what it keeps.
#[derive(Drop)]
pub struct Outcome {
    pub status: Status,
    pub kept: Kept,
}

impl Outcome {
    /// A status with which nothing is kept.
    pub fn of(status: Status) -> Outcome
        ensures { result ≡ record { status = status; kept = Kept.Nothing } }
    {
        Outcome {
            status,
            kept: Kept::Nothing,
        }
    }
}
