//! The operations of one write.
ghost use Rattle.std.specs.Prelude.{◌≡◌, ◌+◌, ◌<◌, ◌≤◌, length, MatchOption};
ghost use Rattle.kz_spec_data.specs.Difference.{op_size, chunk as chunk_of};

use kz_types::{MAX_CHUNK, MAX_CHUNK_BYTES, OP_BYTES, Op};

// How many bytes the path and the body of an operation have. A delete and a check have no body.
fn text_lens(op: &Op) -> (usize, usize)
    ensures { OP_BYTES + result.0 + result.1 ≡ op_size op.now }
{
    match op {
        Op::Create { path, body, .. } => (path.bytes().len(), body.len()),
        Op::Set { path, body, .. } => (path.bytes().len(), body.len()),
        Op::Delete { path, .. } => (path.bytes().len(), 0),
        Op::Check { path, .. } => (path.bytes().len(), 0),
    }
}

// How many of so many bytes are left after an operation, or `None` where it has more. Sizes aren't added up here: a sum of
// lengths may pass 64 bits.
fn left_after(bytes: usize, op: &Op) -> Option<usize>
    ensures { MatchOption result (bytes < op_size op.now) (λ left. op_size op.now + left ≡ bytes) }
{
    let (path, body) = text_lens(op);
    if bytes < OP_BYTES {
        return None;
    }
    if bytes - OP_BYTES < path {
        return None;
    }
    if bytes - OP_BYTES - path < body {
        return None;
    }
    Some(bytes - OP_BYTES - path - body)
}

// How many operations the next write has.
fn chunk_len(ops: &[Op]) -> usize
    ensures count { result ≡ length (chunk_of ops.now) }
    ensures within { result ≤ length ops.now }
{
    let most = ops.len().min(MAX_CHUNK);
    let mut bytes = MAX_CHUNK_BYTES;
    for count in 0..most {
        match left_after(bytes, &ops[count]) {
            Some(left) => bytes = left,
            None => return count.max(1),
        }
    }
    most
}

/// The operations of the next write: the most of the first [`MAX_CHUNK`] that have [`MAX_CHUNK_BYTES`] together, each counted
/// with its path, its body and [`OP_BYTES`]; the first alone where it has more. It takes no memory.
pub fn chunk(ops: &[Op]) -> &[Op]
    ensures { result.now ≡ chunk_of ops.entry.now }
{
    &ops[..chunk_len(ops)]
}
