// The types of the crest library, what a kind byte says, the shape and the anchor of a kind, a refusal as an outcome, and document 01's
// numbers under their names: layout, limits, refusals, units. Every definition of document 01 over them is in specs/.
#![tactic(auto)]

ghost use Rattle.std.specs.Prelude.{[], ◌≡◌};
ghost use Rattle.model.specs.Kinds.{decide, shape_of, anchored_far};
ghost use Rattle.model.specs.Answers.{paper_if, paper_of_outcome};

pub mod layout;
pub mod limits;
pub mod refusals;
pub mod units;

// The four kinds of element that are known.
#[derive(Clone, Copy)]
pub enum Kind {
    Line,
    Arc,
    EntrySpiral,
    ExitSpiral,
}

// The shape of an element's curve.
#[derive(Clone, Copy)]
pub enum Shape {
    Straight,
    Circular,
    Clothoid,
}

// The shape of a kind: both spirals are clothoids.
pub fn shape_of(kind: Kind) -> Shape
    ensures { result ≡ shape_of kind }
{
    match kind {
        Kind::Line => Shape::Straight,
        Kind::Arc => Shape::Circular,
        Kind::EntrySpiral => Shape::Clothoid,
        Kind::ExitSpiral => Shape::Clothoid,
    }
}

// Whether the anchor of a kind is its far end.
pub fn anchored_far(kind: Kind) -> bool
    ensures { result ≡ anchored_far kind }
{
    match kind {
        Kind::Line => false,
        Kind::Arc => false,
        Kind::EntrySpiral => false,
        Kind::ExitSpiral => true,
    }
}

// What a kind byte says.
#[derive(Clone, Copy)]
pub enum KindByte {
    Damaged,
    Known(Kind),
    Later,
}

// The kind byte of a record: 0 and 16 to 255 are damage, 5 to 15 belong to later editions.
pub fn kind_of(byte: u8) -> KindByte
    ensures { result ≡ decide byte }
{
    match byte {
        1 => KindByte::Known(Kind::Line),
        2 => KindByte::Known(Kind::Arc),
        3 => KindByte::Known(Kind::EntrySpiral),
        4 => KindByte::Known(Kind::ExitSpiral),
        5..=15 => KindByte::Later,
        _ => KindByte::Damaged,
    }
}

// An element as its record gives it: length and radius in mm, anchor in grains (document 01: 100 grains to 1 mm),
// direction at the anchor.
#[derive(Clone, Copy)]
pub struct Element {
    pub kind: Kind,
    pub length: u64,
    pub x: i64,
    pub y: i64,
    pub c: i64,
    pub s: i64,
    pub radius: i64,
}

// A point of the plane, in grains.
#[derive(Clone, Copy)]
pub struct Point {
    pub x: i64,
    pub y: i64,
}

// A refusal: its number in document 01's table, and its place.
#[derive(Clone, Copy)]
pub struct Refusal {
    pub number: u32,
    pub place: u32,
}

// What a check, a reader's part or a writer comes to.
#[derive(Clone, Copy)]
pub enum Outcome {
    Done,
    Refused(Refusal),
}

// The refusal with this number and place.
pub fn refused(number: u32, place: u32) -> Outcome
    ensures value { result ≡ Outcome.Refused (record { number = number; place = place }) }
    ensures paper { paper_of_outcome result ≡ paper_if (Outcome.Refused (record { number = number; place = place })) [] }
{
    Outcome::Refused(Refusal { number, place })
}

// Position and direction at a station, or of what was sighted.
#[derive(Clone, Copy)]
pub enum Placed {
    At { x: i64, y: i64, tx: i64, ty: i64 },
    Refused(Refusal),
}

// Station and offset of a point, with the residual and the number of stations that were visited.
#[derive(Clone, Copy)]
pub enum Located {
    At {
        station: u64,
        offset: i64,
        residual: i64,
        visits: u64,
    },
    Refused(Refusal),
}

// The point at a station and an offset.
#[derive(Clone, Copy)]
pub enum Inverse {
    At { x: i64, y: i64 },
    Refused(Refusal),
}

// How far to move a stake: forward along the heading, and to its left.
#[derive(Clone, Copy)]
pub enum Move {
    By { forward: i64, left: i64 },
    Refused(Refusal),
}

// A reading from the logger.
#[derive(Clone, Copy)]
pub enum Reading {
    PlanePoint { x: f64, y: f64 },
    LinePlace { station: f64, offset: f64 },
}

// A sighting: the place of the instrument in grains, the direction to a backsight and the angle turned from it to the prism, each as cosine and
// sine with ONE for 1, and the horizontal distance to the prism in grains.
#[derive(Clone, Copy)]
pub struct Sighting {
    pub x: i32,
    pub y: i32,
    pub backsight_c: i32,
    pub backsight_s: i32,
    pub angle_c: i32,
    pub angle_s: i32,
    pub distance: i32,
}

// What is put to a crest and counted on a run: a reading or a sighting.
#[derive(Clone, Copy)]
pub enum Observation {
    Read(Reading),
    Sighted(Sighting),
}

// What a reading or a sighting on a crest comes to.
#[derive(Clone, Copy)]
pub enum ReadingAnswer {
    PlanePoint {
        station: u64,
        offset: i64,
        residual: i64,
        visits: u64,
    },
    LinePlace {
        x: i64,
        y: i64,
    },
    Refused(Refusal),
}

// Station and offset in millimetres, for the display.
#[derive(Clone, Copy)]
pub struct Display {
    pub station: f64,
    pub offset: f64,
}

// The run record: how many readings were answered and refused, the number of the latest outcome with its three values,
// and the first refusal since the last acknowledgement with the number of its reading.
#[repr(C)]
#[derive(Clone, Copy)]
pub struct Run {
    pub answered: u16,
    pub refused: u16,
    pub latest: u16,
    pub first: u16,
    pub reading: u16,
    pub one: i32,
    pub two: i32,
    pub three: i32,
}

// What a reading or a sighting on a run came to, and the run afterwards.
#[derive(Clone, Copy)]
pub struct Noted {
    pub answer: ReadingAnswer,
    pub run: Run,
}
