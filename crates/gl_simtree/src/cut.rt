//! Paths as parts with slashes between them.
ghost use Rattle.std.specs.Prelude.{◌≡◌, Some, None, MatchOption};
ghost use Rattle.gl_simtree.specs.Cuts.{before_slash, behind_slash};

/// The part of a path before its first slash, and what is behind that slash.
pub(crate) fn cut(path: &[u8]) -> (&[u8], Option<&[u8]>)
    ensures before { result.0.now ≡ before_slash path.now }
    ensures behind { MatchOption result.1 (behind_slash path.now ≡ None) (λ rest. behind_slash path.now ≡ Some rest.now) }
{
    for at in 0..path.len() {
        if path[at] == b'/' {
            return (&path[..at], Some(&path[at + 1..]));
        }
    }
    (path, None)
}
