// The list of names as JSON.
ghost use Rattle.std.specs.Prelude.{◌≡◌, IfOk};
ghost use Rattle.serde_json.specs.Data.{string};
ghost use Rattle.serde_json.specs.View.{view};
ghost use Rattle.lie_outer.specs.Names.{IsStudyName};
ghost use Rattle.lie_http.specs.NamesJson.{names_data, names_json};

use lie_outer::{Bytes, Name, NoMemory};
use serde_json::{Value, json};
use std::alloc::{AllocError, Global};
use std::str;

// A name as JSON.
fn name_value(alloc: Global, name: &Name) -> Result<Value, AllocError>
    ensures { IfOk result (λ value. view value ≡ string name.now) }
{
    let Ok(text) = str::from_utf8(name.bytes()) else {
        unreachable!()
    };
    Value::try_from_str(alloc, text)
}

// The names as JSON.
fn names_value(alloc: Global, names: &[Name]) -> Result<Value, AllocError>
    ensures { IfOk result (λ value. view value ≡ names_data names.now) }
{
    let mut values = Vec::new(alloc);
    for name in names {
        values.push(name_value(alloc, name)?)?;
    }
    json!(in alloc; {"names": values})
}

/// The names as JSON without blanks: an object with the one member `names`, whose value is the array of all names in their order.
pub fn names_json(alloc: Global, names: &[Name]) -> Result<Bytes, NoMemory>
    ensures { IfOk result (λ text. text ≡ names_json names.now) }
{
    let value = names_value(alloc, names)?;
    Ok(Bytes::from_vec(value.to_vec(alloc)?))
}
