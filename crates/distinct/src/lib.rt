// The row that is searched: each coefficient once and none of 0, with a place where it stands. A step by an equal coefficient leads
// nowhere new, and one by 0 nowhere at all.
#![tactic(auto)]

ghost use Rattle.std.specs.Prelude.{◌≡◌, ◌≤◌, length, replicate};
ghost use Rattle.sums.specs.Sum.{total};
ghost use Rattle.distinct.specs.Row.{Kept, Inside, Spread};

// Fills the row and its places, and answers how many there are. The caller lends the room for them, since there is no heap.
pub fn distinct(k: &[i8], row: &mut [i8], places: &mut [u8]) -> usize
    requires { (length k.now ≤ 16) × (length row.old ≡ length k.now) × (length places.old ≡ length k.now) }
    ensures { Kept k.now row.new places.new result (length k.now) }
{
    let mut n = 0;
    for (p, c) in k.iter().enumerate() {
        if *c != 0 && !row[..n].contains(c) {
            row[n] = *c;
            // `as`: p is below 16, and `u8::try_from` would add an error that never comes.
            places[n] = p as u8;
            n += 1;
        }
    }
    n
}

// The counts of the row are put back at their places.
pub fn spread(places: &[u8], y: &[u16], x: &mut [u16])
    requires places_len { (length places.now ≡ length y.now) × (x.old ≡ replicate (length x.old) 0) × (total y.now ≤ 19900) }
    requires inside { Inside places.now (length x.old) }
    ensures { Spread places.now y.now x.new }
{
    for (place, count) in places.iter().zip(y) {
        x[usize::from(*place)] += *count;
    }
}
