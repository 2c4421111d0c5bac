ghost use Rattle.std.specs.Prelude.{IfOk};
ghost use Rattle.std.specs.Bool.{Decides};
ghost use Rattle.cat_rules.specs.Readable as spec;

use cat_texts::type_of;
use lake_types::{BadValue, NoMemory, Words, value_of};
use std::alloc::{AllocError, Global};

/// Whether there is a text, and no value of the type has it.
pub fn is_unreadable(alloc: Global, type_text: &str, text: &Option<Words>) -> Result<bool, NoMemory>
    ensures { IfOk result (λ yes. Decides yes (spec.IsUnreadable type_text.now text.now)) }
{
    let Some(text) = text else {
        return Ok(false);
    };
    let Some(ty) = type_of(type_text) else {
        return Ok(true);
    };
    match value_of(alloc, ty, text.as_str()) {
        Ok(_value) => Ok(false),
        Err(BadValue::Text) => Ok(true),
        Err(BadValue::Memory) => Err(AllocError),
    }
}
