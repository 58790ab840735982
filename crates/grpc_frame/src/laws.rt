//! Laws of the definitions that the contracts cite. The functions do nothing: their contracts are
//! the laws.

ghost use Rattle.grpc_frame.specs.Laws.{FrontsKeepProfile, FrontsStay, FaultsStay, RecordsReadBack};
ghost use Rattle.grpc_frame.specs.Laws.{AtMostOneSplit, EachSplits, SplitsGoOn, WrittenSplits};

/// What the function on bytes says of the front is what the profile's words say of it.
pub fn fronts_keep_profile()
    ensures { FrontsKeepProfile }
{}

/// A record in front, or a fault, stays there whatever comes after it.
pub fn fronts_stay()
    ensures { FrontsStay }
{}

/// Where an inbox met a fault, it answers that fault from then on, whatever is fed.
pub fn faults_stay()
    ensures { FaultsStay }
{}

/// A record's bytes read as that record, whatever follows them.
pub fn records_read_back()
    ensures { RecordsReadBack }
{}

/// Bytes are at most one list of records, with one rest and one ending.
pub fn at_most_one_split()
    ensures { AtMostOneSplit }
{}

/// Bytes are some list of records and a rest with an ending.
pub fn each_splits()
    ensures { EachSplits }
{}

/// The records of the pieces are the records of the whole stream.
pub fn splits_go_on()
    ensures { SplitsGoOn }
{}

/// What is written for records splits as those records.
pub fn written_splits()
    ensures { WrittenSplits }
{}
