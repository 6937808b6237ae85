ghost use Rattle.std.specs.Prelude.{◌≡◌, ◌≤◌};
ghost use Rattle.unify.specs.Markings.{carried, Settled};

use crate::marking::Marking;
use makers::index::Indexed;
use survey::labels::relabel;

impl Marking {
    // The token of the link that concludes the occurrence, 0 where there is none. The sides read theirs off the row that
    // is handed to them.
    pub(crate) fn token_on(&self, index: &Indexed, o: u16) -> u16
        ensures value { result ≡ carried index.now.table.now.slots.at self.now o }
    {
        self.token[index.maker(o) as usize]
    }

    // Link n passes with the token s, and so does all that had t. Links and tokens are plain numbers, as the rows are.
    pub(crate) fn settle(&mut self, n: u16, s: u16, t: u16)
        requires number { n ≤ 256 }
        requires left { s ≤ 256 }
        requires right { t ≤ 256 }
        requires passes { self.old.passes ≤ 256 }
        ensures marks { Settled self.old n s t self.new }
    {
        let before_left = self.last[s as usize];
        let before_right = self.last[t as usize];
        relabel(&mut self.token, s, t);
        self.token[n as usize] = s;
        self.first[n as usize] = before_left;
        self.second[n as usize] = before_right;
        self.last[s as usize] = n;
        self.passes += 1;
    }
}
