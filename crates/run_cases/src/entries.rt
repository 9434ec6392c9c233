//! The entries of maps as text.
use map_types::{Key, Value};
use std::alloc::AllocError;

fn put_entry(key: &Key, value: &Value, told: &mut String) -> Result<(), AllocError> {
    let key = key.as_str();
    match value {
        Value::Int(number) => write!(told, " {key} i{number}"),
        Value::Text(text) => {
            let text = text.as_str();
            write!(told, " {key} t{text}")
        }
    }
}

/// Adds the keys and their values to the text.
pub fn put_entries(entries: &[(Key, Value)], told: &mut String) -> Result<(), AllocError> {
    for (key, value) in entries {
        put_entry(key, value, told)?;
    }
    Ok(())
}
