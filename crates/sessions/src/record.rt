use column::kind::Instant;

// A record of a session, and the line that it stands in.
#[derive(Clone, Copy)]
pub struct Record<'a> {
    pub line: &'a str,
    pub session: &'a str,
    pub expiry: Option<Instant>,
}
