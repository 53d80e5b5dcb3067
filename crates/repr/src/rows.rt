// Parts one after the other.
ghost use Rattle.repr.specs.Rows.{Along};

use super::{Cursor, Refusal};

impl Cursor {
    // Where so many parts end; `part` answers where the one at a place ends.
    pub fn each<F: Fn(Cursor) -> Result<Cursor, Refusal>>(
        self,
        count: u8,
        part: F,
    ) -> Result<Cursor, Refusal>
        requires { F.IsAlwaysCallable part }
        ensures { Along (F.post part) count self result }
    {
        let mut c = self;
        for _ in 0..count {
            c = part(c)?;
        }
        Ok(c)
    }
}
