//! What holds of records and their fields in every layout.
ghost use Rattle.std.specs.Prelude.{◌≡◌, ◌<◌, ◌^◌, ◌∷◌, [], ◌++◌, ℕ, List, Some};
ghost use Rattle.byteorder.specs.Endian.{big_bytes};
ghost use Rattle.map_types.specs.Numbers.{func_number};
ghost use Rattle.map_types.specs.declared.commands.Command.{Command};
ghost use Rattle.log_records.specs.Agreement.{Agrees, RefusesCuts};
ghost use Rattle.log_records.specs.Layout.{Layout, IsLayout};
ghost use Rattle.log_records.specs.Spelling.{Any, IsText, IsValue, IsArgument, IsCommand, IsRecord, key_bytes, value_bytes, record_bytes};
ghost use Rattle.log_records.specs.Reading.{number_at, key_at, value_at, some_value_at, func_at, record_at};

/// The fields that are read are those that were spelled so, and what is spelled so is read again, whatever follows it.
pub fn fields_agree()
    ensures number { (width : ℕ) → Agrees (number_at width) (big_bytes width) (λ number.
        number < 256 ^ width) }
    ensures key { (layout : Layout) → IsLayout layout
        → Agrees (key_at layout) (key_bytes layout) (IsText layout.key_limit) }
    ensures value { Agrees value_at value_bytes IsArgument }
    ensures some_value { Agrees some_value_at (λ value. value_bytes (Some value)) IsValue }
    ensures func { Agrees func_at (λ func. func_number func ∷ []) Any }
{}

/// The same of records.
pub fn record_agrees()
    ensures { (layout : Layout) → IsLayout layout
        → Agrees (record_at layout) (record_bytes layout) (IsCommand layout) }
{}

/// A record whose last bytes are missing, however many, is refused as `BadFrame`.
pub fn cut_records()
    ensures { (layout : Layout) → IsLayout layout
        → RefusesCuts (record_at layout) (record_bytes layout) (IsCommand layout) }
{}

/// No record begins another, and none has two meanings or two spellings.
pub fn one_record()
    ensures { (layout : Layout) (a b after_a after_b : List ℕ) (c d : Command) → IsLayout layout
        → IsRecord layout a c → IsRecord layout b d → a ++ after_a ≡ b ++ after_b
        → (a ≡ b) × (c ≡ d) }
{}
