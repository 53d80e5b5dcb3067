#![tactic(auto)]
// An entry of a slice, or a default.
ghost use Rattle.std.specs.Prelude.{◌≡◌, get_or};

// Entry i; the default past the end.
pub fn get_or<T: Copy>(entries: &[T], i: usize, default: T) -> T
    ensures { result ≡ get_or entries.now i default }
{
    entries.get(i).copied().unwrap_or(default)
}
