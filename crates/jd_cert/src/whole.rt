//! The certificate that a whole text is, read by the reader of lines, so that the grammar stands in
//! one place. What the lines tell is kept, and a text that ends too early is refused.
ghost use Rattle.std.specs.Prelude.{◌+◌, ◌<◌, ◌^◌, length};
ghost use Rattle.jd_trees.specs.CertTexts.{certificate_of};
ghost use Rattle.jd_cert.specs.Certs.{IsRead};

use crate::certs::Cert;
use crate::faults::CertFault;
use crate::kept::Kept;
use crate::reader::CertReader;
use jd_text::next_line;
use std::alloc::Global;

/// The certificate that a text is, or the first bad line.
pub fn read_cert(alloc: Global, bytes: &[u8]) -> Result<Cert, CertFault>
    requires { length bytes.now + 1 < 2 ^ 32 }
    ensures { IsRead (certificate_of bytes.now) result }
{
    let mut reader = CertReader::new(alloc);
    let mut kept = Kept::new(alloc);
    let mut at = 0;
    'lines: while let Some((line, next)) = next_line(bytes, at) {
        let event = reader.take(line)?;
        kept.put(event)?;
        at = next;
    }
    if !reader.whole() {
        return Err(CertFault::Syntax {
            line: reader.lines() + 1,
        });
    }
    Ok(Cert::new(kept.into_nodes()))
}
