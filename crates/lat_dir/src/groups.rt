//! Groups: a mask has bit g mod 8 of byte g / 8 set where group g is in it.

ghost use Rattle.std.specs.Prelude.{◌≡◌, ◌||◌};
ghost use Rattle.std.specs.List.{list_any, zip};
ghost use Rattle.lat_model.specs.Lists.{is_empty};
ghost use Rattle.lat_machines.specs.server.Directory.{share_bits, share_group};

fn share_a_bit(x: u8, y: u8) -> bool
    ensures { result ≡ share_bits 8 x y }
{
    x & y != 0
}

/// Whether some group is in both masks. Groups whose byte a mask doesn't have aren't in it.
fn share_a_group(mask: &[u8], groups: &[u8]) -> bool
    ensures { result ≡ list_any (λ p. share_bits 8 p.0 p.1) (zip mask.now groups.now) }
{
    mask.iter().zip(groups).any(|(x, y)| share_a_bit(*x, *y))
}

/// Whether an announcement with this mask counts where these groups are listened to: its mask is empty, or some group
/// is in both.
pub fn are_met(mask: &[u8], groups: &[u8]) -> bool
    ensures { result ≡ (is_empty mask.now || share_group mask.now groups.now) }
{
    mask.is_empty() || share_a_group(mask, groups)
}
