//! The parts of a path at its last `/`.
ghost use Rattle.std.specs.Prelude.{◌≡◌};
ghost use Rattle.kz_spec_data.specs.Tree.{parent_of, name_of};

/// The path of the parent: what stands before the last `/`. It is empty where the parent is the root.
pub fn parent_of(path: &[u8]) -> &[u8]
    ensures { result.now ≡ parent_of path.now }
{
    let mut end = 0;
    for (at, byte) in path.iter().enumerate() {
        if *byte == b'/' {
            end = at;
        }
    }
    &path[..end]
}

/// The last part of a path: what stands after the last `/`.
pub fn name_of(path: &[u8]) -> &[u8]
    ensures { result.now ≡ name_of path.now }
{
    let mut start = 0;
    for (at, byte) in path.iter().enumerate() {
        if *byte == b'/' {
            start = at + 1;
        }
    }
    &path[start..]
}
