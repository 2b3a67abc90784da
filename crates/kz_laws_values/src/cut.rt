//! How an input is cut into lines while its bytes come one after another.
//!
//! A law is the contract of a function that does nothing.

ghost use Rattle.std.specs.Prelude.{◌≡◌, ◌≢◌, ◌+◌, ◌<◌, ◌≤◌, ℕ, List, [], ◌∷◌, ◌++◌, length};
ghost use Rattle.kz_types.specs.declared.limits.TheConstants.{MAX_INPUT_BYTES, MAX_LINE_BYTES};
ghost use Rattle.kz_spec_data.specs.Lines.{line, long, much, items};
ghost use Rattle.kz_laws_values.specs.Coming.{lines_after};

/// Before the first byte the lines that come are those of the whole input. A byte that ends no line stands at the end of the
/// line so far, unless the line or the input has as many bytes as are allowed; a line feed ends the line, unless the input has.
/// At the end of the input the bytes of a line so far are a line.
pub fn bytes_are_cut()
    ensures start { (input : List ℕ) → lines_after [] 0 input ≡ items input }
    ensures byte { (l : List ℕ) (t b : ℕ) (rest : List ℕ) → b ≢ 10 → length l < MAX_LINE_BYTES → t < MAX_INPUT_BYTES → lines_after l t (b ∷ rest) ≡ lines_after (l ++ b ∷ []) (t + 1) rest }
    ensures feed { (l : List ℕ) (t : ℕ) (rest : List ℕ) → t < MAX_INPUT_BYTES → lines_after l t (10 ∷ rest) ≡ line l ∷ lines_after [] (t + 1) rest }
    ensures long_line { (l : List ℕ) (t b : ℕ) (rest : List ℕ) → b ≢ 10 → MAX_LINE_BYTES ≤ length l → lines_after l t (b ∷ rest) ≡ long ∷ [] }
    ensures long_input { (l : List ℕ) (t b : ℕ) (rest : List ℕ) → b ≢ 10 → length l < MAX_LINE_BYTES → MAX_INPUT_BYTES ≤ t → lines_after l t (b ∷ rest) ≡ much ∷ [] }
    ensures feed_after_all { (l : List ℕ) (t : ℕ) (rest : List ℕ) → MAX_INPUT_BYTES ≤ t → lines_after l t (10 ∷ rest) ≡ much ∷ [] }
    ensures last { (l : List ℕ) (t : ℕ) → 0 < length l → lines_after l t [] ≡ line l ∷ [] }
    ensures none { (t : ℕ) → lines_after [] t [] ≡ [] }
{}
