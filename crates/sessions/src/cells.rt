use column::kind::Instant;

// Cells of one session, or of all records.
pub type Cells = Vec<Option<Instant>>;
