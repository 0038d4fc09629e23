// Position and direction on one element, in 64 bits, equal to the definitions of `model` for every accepted element.
// What depends on the element alone is prepared once; a station is then computed from magnitudes.
#![tactic(auto)]

ghost use Rattle.std.specs.Prelude.{◌≡◌, ◌^◌, ◌≤◌, pos, nat_abs, ◌+ℤ◌, ◌*ℤ◌};
ghost use Rattle.integers.specs.Signs.{sign_of};
ghost use Rattle.model.specs.Rounding.{ONE, near};
ghost use Rattle.model.specs.Acceptance.{longest_element, widest};
ghost use Rattle.model.specs.Accepted.{Accepted};
ghost use Rattle.model.specs.Series.{from_anchor, facing, length_at, position_on, tangent_on};
ghost use Rattle.elements.specs.Prepared.{divisor_of, prepared_of, Ready};
ghost use Rattle.elements.specs.Reached.{widest_angle, Turnable, Near, measured, measured_at, Reachable, element_reached, point_of, heading_of, placement_of};

use crate::series::Magnitudes;
use integers::signs::{sign_of, with_sign};
use model::{Element, Kind, Point, Shape, anchored_far, shape_of, units};
use rounding::{lowered_for, near_one};

mod series;

// What depends on the element alone: the divisor of the angle with what is added before the division, what is taken off for a
// half of a number with the sign of the radius, and the axes along which the magnitudes of u and of v count.
#[derive(Clone, Copy)]
pub struct Prepared {
    pub element: Element,
    pub off: u64,
    pub divisor: u64,
    pub half: u64,
    pub ux: i64,
    pub uy: i64,
    pub vx: i64,
    pub vy: i64,
}

// Position and direction at a station.
#[derive(Clone, Copy)]
pub struct Placement {
    pub x: i64,
    pub y: i64,
    pub tx: i64,
    pub ty: i64,
}

// The divisor of the angle, doubled on an arc.
fn divisor_of(shape: Shape, radius: u64, whole: u64) -> u64
    requires { (radius ≤ widest) × (whole ≤ longest_element) }
    ensures { result ≡ divisor_of shape radius whole }
{
    match shape {
        Shape::Straight => 0,
        Shape::Circular => 2 * radius,
        Shape::Clothoid => 2 * radius * whole,
    }
}

// A component along the axis of u, or of the direction across it: negated where the anchor is the far end.
fn faced(far: bool, z: i64) -> i64
    requires { nat_abs z ≤ 2 ^ 32 }
    ensures { result ≡ facing far z }
{
    if far { 0 - z } else { z }
}

// An accepted element, prepared.
pub fn prepare(e: Element) -> Prepared
    requires { Accepted e }
    ensures value { result ≡ prepared_of e }
    ensures ready { Ready result }
{
    let kind = e.kind;
    let negative = sign_of(e.radius);
    let off = lowered_for(negative);
    let divisor = divisor_of(shape_of(kind), integers::magnitude(e.radius), e.length);
    let far = anchored_far(kind);
    Prepared {
        element: e,
        off,
        divisor,
        half: divisor / 2 - off,
        ux: faced(far, e.c),
        uy: faced(far, e.s),
        vx: with_sign(negative, with_sign(1, e.s)),
        vy: with_sign(negative, e.c),
    }
}

// The length from the anchor, at s mm from the start of an element.
fn from_anchor(far: bool, length: u64, s: u64) -> u64
    requires { s ≤ length }
    ensures { result ≡ from_anchor far length s }
{
    if far { length - s } else { s }
}

// The angle, u and v (U and V on a spiral) at s mm from the element's start, by the numbers that they depend on. Shape and anchor are constants in each arm.
fn reach(kind: Kind, length: u64, off: u64, divisor: u64, half: u64, s: u64) -> Magnitudes
    requires { Reachable kind length off divisor half s }
    ensures { (x : Reachable kind length off divisor half s) → measured (sign_of (element_reached x).radius) result ≡ measured_at (element_reached x) (length_at (element_reached x) s) }
{
    match kind {
        Kind::Line => Magnitudes {
            angle: 0,
            along: units::GRAINS * from_anchor(false, length, s),
            aside: 0,
        },
        Kind::Arc => {
            let l = from_anchor(false, length, s);
            series::arc(l, series::arc_angle(l, half, divisor), off)
        }
        Kind::EntrySpiral => {
            let l = from_anchor(false, length, s);
            series::spiral(l, series::spiral_angle(l, half, divisor), off)
        }
        Kind::ExitSpiral => {
            let l = from_anchor(true, length, s);
            series::spiral(l, series::spiral_angle(l, half, divisor), off)
        }
    }
}

// A coordinate: from `x`, u along an axis with the component a, and v along one with the component b.
fn coordinate(x: i64, a: i64, u: u64, b: i64, v: u64) -> i64
    requires { Turnable x a u b v }
    ensures { result ≡ x +ℤ near (a *ℤ pos u +ℤ b *ℤ pos v) ONE }
{
    x + near_one(a * (u as i64) + b * (v as i64))
}

// The position from the magnitudes of u and v.
fn point_at(p: Prepared, r: Magnitudes) -> Point
    requires ready { Ready p }
    requires near { Near r }
    ensures { result ≡ point_of p.element r }
{
    let e = p.element;
    Point {
        x: coordinate(e.x, p.ux, r.along, p.vx, r.aside),
        y: coordinate(e.y, p.uy, r.along, p.vy, r.aside),
    }
}

// The direction from the magnitude of the angle. Where the anchor is the far end it turns the other way than v lies, so the axis of v is negated.
fn heading_at(p: Prepared, angle: u64) -> Point
    requires ready { Ready p }
    requires angle_le_widest_angle { angle ≤ widest_angle }
    ensures { result ≡ heading_of p.element angle }
{
    let e = p.element;
    let kind = e.kind;
    let d = series::direction(angle, p.off);
    let far = anchored_far(kind);
    Point {
        x: coordinate(0, e.c, d.along, faced(far, p.vx), d.aside),
        y: coordinate(0, e.s, d.along, faced(far, p.vy), d.aside),
    }
}

// The position at s mm from the element's start.
pub fn position(p: Prepared, s: u64) -> Point
    requires ready { Ready p }
    requires s_le_length { s ≤ p.element.length }
    ensures { result ≡ position_on p.element s }
{
    let e = p.element;
    let kind = e.kind;
    point_at(p, reach(kind, e.length, p.off, p.divisor, p.half, s))
}

// The position and the direction at s mm from the element's start.
pub fn placed(p: Prepared, s: u64) -> Placement
    requires ready { Ready p }
    requires s_le_length { s ≤ p.element.length }
    ensures { result ≡ placement_of (position_on p.element s) (tangent_on p.element s) }
{
    let e = p.element;
    let kind = e.kind;
    let r = reach(kind, e.length, p.off, p.divisor, p.half, s);
    let at = point_at(p, r);
    let heading = heading_at(p, r.angle);
    Placement {
        x: at.x,
        y: at.y,
        tx: heading.x,
        ty: heading.y,
    }
}
