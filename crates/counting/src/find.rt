ghost use Rattle.std.specs.Prelude.{◌≡◌, ◌<◌, length, MatchOption};
ghost use Rattle.counting.specs.Rows.{found, row_in};

use crate::row::Row;
use keys::Key;

/// The key's row with its place, if it has one.
pub fn find<K: Key + Copy>(rows: &[Row<K>], key: K) -> Option<(usize, Row<K>)>
    ensures value { result ≡ found K.meaning rows.now key }
    ensures within { MatchOption result Unit (λ p. p.0 < length rows.now) }
{
    let place = rows.iter().position(|row| row.has_key(&key))?;
    Some((place, rows[place]))
}

/// The key's row, if it has one. It searches by itself, since `find` would count a place to be dropped.
pub fn row_of<K: Key + Copy>(rows: &[Row<K>], key: K) -> Option<Row<K>>
    ensures { result ≡ row_in K.meaning rows.now key }
{
    rows.iter().find(|row| row.has_key(&key)).copied()
}
