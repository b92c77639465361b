ghost use Rattle.std.specs.Prelude.{◌<◌};

// Where the columns that are read stand, and how many fields a line has.
#[derive(Drop)]
pub struct Columns {
    pub session: usize,
    pub instant: usize,
    pub expiry: usize,
    pub count: usize,
    ghost placed: { (session < count) × (instant < count) × (expiry < count) },
}
