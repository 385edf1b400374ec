//! Options looked up among items.
ghost use Rattle.std.specs.Prelude.{◌≡◌, map, MatchOption, None, Some};
ghost use Rattle.gl_args.specs.Items.{item_in};
ghost use Rattle.gl_args.specs.LookUps.{same_option, is_option, has, value_of, is_again, has_twice};

use crate::items::Item;
use crate::names::OptionName;

/// Whether two options are the same.
fn same_option(a: OptionName, b: OptionName) -> bool
    ensures { result ≡ same_option a b }
{
    a.long_name() == b.long_name()
}

fn gives(option: OptionName, item: &Item<'_>) -> bool
    ensures { result ≡ is_option option item.now.option }
{
    match &item.option {
        Some(other) => same_option(option, *other),
        None => false,
    }
}

/// Whether an option is given.
pub(crate) fn has(option: OptionName, items: &[Item<'_>]) -> bool
    ensures { result ≡ has option (map item_in items.now) }
{
    for item in items {
        if gives(option, item) {
            return true;
        }
    }
    false
}

/// The value of an option, if it is given.
pub(crate) fn value_of<'a>(option: OptionName, items: &[Item<'a>]) -> Option<&'a [u8]>
    ensures { MatchOption result (value_of option (map item_in items.now) ≡ None) (λ value. value_of option (map item_in items.now) ≡ Some value.now) }
{
    for item in items {
        if gives(option, item) {
            return Some(item.text);
        }
    }
    None
}

/// Whether an option is given twice.
pub(crate) fn has_twice(items: &[Item<'_>]) -> bool
    ensures { result ≡ has_twice (map item_in items.now) }
{
    let mut rest = items;
    while let [item, others @ ..] = rest {
        if is_again(&item.option, others) {
            return true;
        }
        rest = others;
    }
    false
}

fn is_again(option: &Option<OptionName>, items: &[Item<'_>]) -> bool
    ensures { result ≡ is_again option.now (map item_in items.now) }
{
    match option {
        Some(option) => has(*option, items),
        None => false,
    }
}
