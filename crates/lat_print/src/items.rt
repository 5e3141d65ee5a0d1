//! Items in print.

ghost use Rattle.std.specs.Prelude.{◌≡◌, ◌++◌, OnOk, string_bytes};
ghost use Rattle.std.specs.List.{flat_map};
ghost use Rattle.lat_print.specs.ItemsText.{item_text, items_text};

use lat_base::Item;
use lat_text::{byte_onto, hex_onto};
use std::alloc::{AllocError, Global};

fn item_onto(alloc: Global, text: &mut String, item: Item) -> Result<(), AllocError>
    ensures { OnOk result (string_bytes text.new ≡ string_bytes text.old ++ item_text item) }
{
    match item {
        Item::Byte(byte) => byte_onto(text, byte),
        Item::Set(setting) => {
            text.push_str("(")?;
            hex_onto(alloc, text, &setting)?;
            text.push_str(")")
        }
    }
}

fn each_onto(alloc: Global, text: &mut String, items: &[Item]) -> Result<(), AllocError>
    ensures { OnOk result (string_bytes text.new
        ≡ string_bytes text.old ++ flat_map item_text items.now) }
{
    for item in items {
        item_onto(alloc, text, *item)?;
    }
    Ok(())
}

/// Adds items as a report has them: two hex digits for a byte, ten in round brackets for a setting, `-` for no item.
/// After want of memory a part of them may stand in the text.
pub fn items_onto(alloc: Global, text: &mut String, items: &[Item]) -> Result<(), AllocError>
    ensures { OnOk result (string_bytes text.new ≡ string_bytes text.old ++ items_text items.now) }
{
    if items.is_empty() {
        return text.push_str("-");
    }
    each_onto(alloc, text, items)
}
