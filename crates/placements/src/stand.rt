// The order made from left to right.
ghost use Rattle.std.specs.Prelude.{◌++◌, ◌≡◌, ℕ, ◌<◌, ◌≤◌, eqb, length, drop, IfSome, unwrap_or};
ghost use Rattle.rules.specs.Crossing.{bit};
ghost use Rattle.rules.specs.Walk.{made, next_to_stand};
ghost use Rattle.placements.specs.Rows.{reads, Rows, Within};

use super::Relation;
use super::closure::Side;

impl Relation {
    // The smallest-numbered outlet, among those not yet standing, that has no outlet still to stand left of it.
    fn next(&self, n: usize, standing: u32) -> Option<usize>
        requires { (n ≤ 32) × Rows self.now.rows × Within n self.now.rows }
        ensures next { unwrap_or result n ≡ next_to_stand n (reads self.now.rows) (λ u. eqb (bit standing u) 1) }
        ensures below { IfSome result (λ o. o < n) }
    {
        for o in 0..n {
            if standing >> o & 1 == 0 {
                if self.rows[Side::Left.row(o)] & !standing == 0 {
                    return Some(o);
                }
            }
        }
        None
    }

    // Again and again the next, until all n stand in the front of a room.
    pub fn order(self, n: usize, room: &mut [u8])
        requires { (n ≤ 32) × (n ≤ length room.old) × Rows self.rows × Within n self.rows }
        ensures { room.new ≡ made n (reads self.rows) ++ drop n room.old }
    {
        let mut standing: u32 = 0;
        for i in 0..n {
            let o = self.next(n, standing).unwrap();
            room[i] = o as u8;
            standing |= 1 << o;
        }
    }
}
