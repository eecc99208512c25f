//! Laws of records. The contract of each function is the law, and its body is empty.
ghost use Rattle.std.specs.Prelude.{◌≡◌, ℕ, List};
ghost use Rattle.gixobj_records.specs.Records.{BeginsWithRecord, DecodesToRecords, IsBatchError, RecordView};
ghost use Rattle.gixobj_records.specs.declared.records.BatchError.TheVariants as batch;
ghost use Rattle.gixobj_records.specs.declared.records.RecordFault.{RecordFault};

/// Records decode uniquely.
///
/// An input begins with at most one record, and is the concatenation of at most one list of records.
pub fn records_decode_uniquely()
    ensures one_record { (input : List ℕ) (it it' : RecordView) (rest rest' : List ℕ)
        → BeginsWithRecord input it rest → BeginsWithRecord input it' rest' → (it ≡ it')
        × (rest ≡ rest') }
    ensures one_list { (input : List ℕ) (records records' : List RecordView)
        → DecodesToRecords input records → DecodesToRecords input records' → records ≡ records' }
{}

/// An input with a malformed record is the concatenation of no records.
pub fn malformed_input_has_no_records()
    ensures { (input : List ℕ) (offset : ℕ) (fault : RecordFault) (records : List RecordView)
        → IsBatchError input (batch.Malformed offset fault) → ¬ DecodesToRecords input records }
{}
