//! Lists of what may be missing.

ghost use Rattle.std.specs.Prelude.{◌≡◌, ◌++◌, OnOk, OnErr};
ghost use Rattle.std.specs.Option.{option_to_list};

use dn_guest::NoMemory;

/// Adds the item, where there is one.
pub(crate) fn push_some<T: Drop>(list: &mut Vec<T>, item: Option<T>) -> Result<(), NoMemory>
    ensures ok { OnOk result (list.new.items ≡ list.old.items ++ option_to_list item) }
    ensures err { OnErr result (list.new.items ≡ list.old.items) }
{
    if let Some(item) = item {
        list.push(item)?;
    }
    Ok(())
}
