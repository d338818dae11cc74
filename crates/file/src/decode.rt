//! Reading a file.
ghost use Rattle.std.specs.Prelude.{◌≡◌, IfOk};
ghost use Rattle.graph.specs.Rows.{told};
ghost use Rattle.file.specs.Contents.{contents, Within};
ghost use Rattle.file.specs.Files.{read, write, stored_answer};
ghost use Rattle.file.specs.FileFaults.{file_refusal};

use crate::faults::FileFault;
use crate::layout::Layout;
use crate::tables::Tables;

/// Reads a file: the list and the plan that it holds, or the first row of layer 1 that refuses it.
pub fn decode(bytes: &[u8]) -> Result<Tables, FileFault>
    ensures answer { told file_refusal result ≡ stored_answer (read bytes.now) }
    ensures within { IfOk result (λ t. Within (contents t)) }
    ensures inverse { IfOk result (λ t. write (contents t) ≡ bytes.now) }
{
    let layout = Layout::of(bytes);
    layout.judge()?;
    Ok(layout.tables())
}
