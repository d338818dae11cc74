//! A caller's buffer, which takes a text whole or is left alone. It is lent and not handed out, since of it refusal 26 and the clauses
//! speak.
ghost use Rattle.std.specs.Prelude.{◌≡◌, ◌≤◌, length, IfOk};
ghost use Rattle.graph.specs.Rows.{told};
ghost use Rattle.sketch.specs.SketchFaults.{sketch_refusal};
ghost use Rattle.sketch.specs.Buffers.{put_answer, put_after};

use crate::faults::SketchFault;

/// Writes the text at the start of the buffer and answers its length. Its three clauses are facts that callers cite one by one, and
/// so do not stand in one. A buffer that is too short is refused and stays as it was.
pub(crate) fn put(text: &[u8], buffer: &mut [u8]) -> Result<usize, SketchFault>
    ensures answer { told sketch_refusal result ≡ put_answer text.now buffer.old }
    ensures within { IfOk result (λ n. n ≤ length buffer.old) }
    ensures after { buffer.new ≡ put_after text.now buffer.old }
{
    let needed = text.len();
    if buffer.len() < needed {
        return Err(SketchFault::ShortBuffer { needed });
    }
    buffer[..needed].copy_from_slice(text);
    Ok(needed)
}
