//! The bytes of values and of records of changes, which log files, checkpoint files and request frames hold.
//!
//! A record is the number of its method in one byte (16 to 25), its key behind the key's length, and the method's
//! arguments. Numbers stand with their highest byte first. The two versions of a record differ in how many bytes the
//! length of a key takes.
#![tactic(auto)]

pub mod laws;
pub mod lengths;
pub mod methods;
pub mod reading;
pub mod versions;
pub mod writing;

pub use laws::{cut_records, fields_agree, one_record, record_agrees};
pub use lengths::record_len;
pub use methods::Method;
pub use reading::{decode, func_at, key_at, number_at, record_at, some_value_at, value_at};
pub use versions::Version;
pub use writing::{encode, put_key, put_number, put_value};
