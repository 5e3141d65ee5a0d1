//! Flags in print.

ghost use Rattle.std.specs.Prelude.{◌≡◌};
ghost use Rattle.lat_text.specs.FlagText.{flag_text};

/// How a flag is printed: `1` where it is set, else `0`.
pub fn flag_text(flag: bool) -> &'static str
    ensures { result.now ≡ flag_text flag }
{
    if flag { "1" } else { "0" }
}
