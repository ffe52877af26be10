//! Texts that are parted at a mark.

ghost use Rattle.std.specs.Prelude.{◌≡◌, ◌<◌, ◌==◌, length, MatchOption, None, Some};
ghost use Rattle.std.specs.List.{position_or_len, before_first, after_first};
ghost use Rattle.command_forms.specs.Parting.{parted};

// What stands before a mark and behind it, by the place where it stands first.
fn cut(text: &str, mark: char) -> Option<(&str, &str)>
    requires { mark < 128 }
    ensures { MatchOption result (position_or_len (λ c. c == mark) text.now ≡ length text.now)
        (λ r. (r.0.now ≡ before_first (λ c. c == mark) text.now) × (r.1.now ≡ after_first (λ c. c == mark) text.now) × (position_or_len (λ c. c == mark) text.now < length text.now)) }
{
    text.split_once(mark)
}

/// What stands before a mark and behind it, where it stands first. The mark is a character of ASCII.
pub fn parted(text: &str, mark: char) -> Option<(&str, &str)>
    requires { mark < 128 }
    ensures { MatchOption result (parted mark text.now ≡ None) (λ r. parted mark text.now ≡ Some (record { before = r.0.now; behind = r.1.now })) }
{
    let (before, behind) = cut(text, mark)?;
    Some((before, behind))
}
