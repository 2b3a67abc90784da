//! How some inputs are cut into lines.
ghost use Rattle.std.specs.Prelude.{◌≡◌, [], ◌∷◌, true, false, codes};
ghost use Rattle.kz_spec_data.specs.Lines.{items, items_from, line, long, much, with_front, is_passed_over};

/// The last line may lack its end, and an end makes no further line.
pub fn two_lines()
    ensures open { items (codes "a\nbc") ≡ line (codes "a") ∷ line (codes "bc") ∷ [] }
    ensures ended { items (codes "a\nbc\n") ≡ line (codes "a") ∷ line (codes "bc") ∷ [] }
    ensures empty { items (codes "\n\n") ≡ line [] ∷ line [] ∷ [] }
    ensures none { items [] ≡ [] }
{}

/// Where a line may have two bytes, a third is the end of the lines, but a line feed isn't.
pub fn a_long_line()
    ensures full { items_from 2 9 (codes "ab\nc") ≡ line (codes "ab") ∷ line (codes "c") ∷ [] }
    ensures longer { items_from 2 9 (codes "abc\nd") ≡ long ∷ [] }
    ensures after { items_from 9 9 (codes "a\nb") ≡ line (codes "a") ∷ line (codes "b") ∷ [] }
{}

/// Where an input may have two bytes, a third is the end of the lines, a line feed too.
pub fn much_input()
    ensures full { items_from 9 2 (codes "ab") ≡ line (codes "ab") ∷ [] }
    ensures more { items_from 9 2 (codes "abc") ≡ much ∷ [] }
    ensures ended { items_from 9 2 (codes "ab\n") ≡ much ∷ [] }
    ensures both { items_from 2 2 (codes "abc") ≡ long ∷ [] }
{}

/// Empty lines and comments are passed over, and lines of blanks aren't.
pub fn passed_over()
    ensures empty { is_passed_over [] ≡ true }
    ensures comment { is_passed_over (codes "# a") ≡ true }
    ensures blank { is_passed_over (codes " # a") ≡ false }
{}
