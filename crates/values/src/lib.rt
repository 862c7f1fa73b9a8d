// Half spaces and transitions of numbers that a sheet can hold, and the value of a marking under coefficients, in signed integers: document 01,
// "Half spaces and verdicts". No sum can wrap.
#![tactic(auto)]

mod sums; // sums.rt: the value of amounts under coefficients

use std::marker::Model;
pub use sums::{Amount, value_of};
use terms::Place;

// A half space over the places of a net.
#[derive(Clone, Copy, Debug, PartialEq, Eq)]
pub struct HalfSpace {
    // A row of the most places, since there is no heap; the first `places` of it count, and zeros stand behind them.
    row: [i8; Place::MOST],
    places: usize,
    constant: i16,
}

impl Model for HalfSpace {
    ghost use Rattle.std.specs.Prelude.{length, pos};
    ghost use Rattle.nets.specs.HalfSpaces.{HalfSpace as Meant, sixteen};
    ghost use Rattle.values.specs.Held.{space_in, IsSpace};

    ghost Value = { Meant };

    ghost view = { λ h. space_in h.row h.places h.constant };

    ghost invariant = { λ h. IsSpace h.row h.places h.constant };

    ghost inverse = { λ m. record { row = sixteen (pos 0) m.coefficients; places = length m.coefficients; constant = m.constant } };
}

impl HalfSpace {
    ghost use Rattle.std.specs.Prelude.{◌≡◌, ◌≤◌, length, map, pos};
    ghost use Rattle.nets.specs.HalfSpaces.{value, sixteen};
    ghost use Rattle.values.specs.Held.{space_in, AreLimited, IsSpace};
    ghost use Rattle.format.specs.Formed.{All, IsCoefficient};
    ghost use Rattle.values.specs.Range.{Constants, Values};

    // The first of sixteen coefficients count, whatever stands behind them.
    pub fn new(mut row: [i8; Place::MOST], places: usize, constant: i16) -> HalfSpace
        requires { AreLimited row places constant }
        ensures { result ≡ space_in row places constant }
    {
        row[places..].fill(0);
        HalfSpace::of_sixteen(row, places, constant)
    }

    // The same, where zeros stand behind them.
    pub fn of_sixteen(row: [i8; Place::MOST], places: usize, constant: i16) -> HalfSpace
        requires { IsSpace row places constant }
        ensures { result ≡ space_in row places constant }
    {
        HalfSpace {
            row,
            places,
            constant,
        }
    }

    pub fn places(&self) -> usize
        ensures value { result ≡ length self.now.coefficients }
        ensures most { result ≤ 16 }
    {
        self.places
    }

    // One for each place.
    pub fn coefficients(&self) -> &[i8]
        ensures value { result.now ≡ self.now.coefficients }
        ensures most { length result.now ≤ 16 }
        ensures fit { All IsCoefficient result.now }
    {
        &self.row[..self.places]
    }

    pub fn constant(&self) -> i16
        ensures value { result ≡ self.now.constant }
        ensures range { Constants result }
    {
        self.constant
    }

    // Sixteen coefficients, zero beyond the places.
    pub fn sixteen(&self) -> [i8; Place::MOST]
        ensures { result ≡ sixteen (pos 0) self.now.coefficients }
    {
        self.row
    }

    // The sum of each coefficient times the amount of its place.
    pub fn value<A: Amount>(&self, amounts: &[A]) -> i32
        requires { length amounts.now ≡ length self.now.coefficients }
        ensures { result ≡ value self.now.coefficients (map A.number amounts.now) }
    {
        value_of(self.coefficients(), amounts)
    }

    // The value of the weights that a transition takes.
    pub fn value_taken(&self, arcs: &Arcs<'_>) -> i32
        requires { length arcs.now.taken ≡ length self.now.coefficients }
        ensures value { result ≡ value self.now.coefficients arcs.now.taken }
        ensures range { Values result }
    {
        let coefficients = self.coefficients();
        value_of(coefficients, arcs.taken())
    }

    // The value of the weights that a transition puts.
    pub fn value_put(&self, arcs: &Arcs<'_>) -> i32
        requires { length arcs.now.taken ≡ length self.now.coefficients }
        ensures value { result ≡ value self.now.coefficients arcs.now.put }
        ensures places { length arcs.now.put ≡ length self.now.coefficients }
        ensures range { Values result }
    {
        let coefficients = self.coefficients();
        value_of(coefficients, arcs.put())
    }
}

// The weights of a transition, one taken and one put for each place. They stay where they stand in the bytes that were lent.
#[derive(Clone, Drop)]
pub struct Arcs<'a> {
    taken: &'a [u8],
    put: &'a [u8],
}

impl<'a> Model for Arcs<'a> {
    ghost use Rattle.nets.specs.Nets.{Transition};
    ghost use Rattle.values.specs.Held.{arcs_in, AreArcs};

    ghost Value = { Transition };

    ghost view = { λ a. arcs_in a.taken.now a.put.now };

    ghost invariant = { λ a. AreArcs a.taken.now a.put.now };
}

impl<'a> Arcs<'a> {
    ghost use Rattle.std.specs.Prelude.{◌≡◌, ◌≤◌, length};
    ghost use Rattle.format.specs.Formed.{All, IsWeight};
    ghost use Rattle.values.specs.Held.{arcs_in, AreArcs};

    pub fn new(taken: &'a [u8], put: &'a [u8]) -> Arcs<'a>
        requires { AreArcs taken.now put.now }
        ensures { result ≡ arcs_in taken.now put.now }
    {
        Arcs { taken, put }
    }

    pub fn taken(&self) -> &'a [u8]
        ensures value { result.now ≡ self.now.taken }
        ensures places { length self.now.put ≡ length result.now }
        ensures most { length result.now ≤ 16 }
        ensures fit { All IsWeight result.now }
    {
        self.taken
    }

    pub fn put(&self) -> &'a [u8]
        ensures value { result.now ≡ self.now.put }
        ensures places { length result.now ≡ length self.now.taken }
        ensures fit { All IsWeight result.now }
    {
        self.put
    }
}
