// Finding a key in a row that is kept by rising key.
ghost use Rattle.std.specs.Prelude.{◌≡◌, ◌≤◌, true, map, length};
ghost use Rattle.descent.specs.Order.{rising_from};
ghost use Rattle.search.specs.Order.{Cut, Within, Located};

use super::keys::Keyed;

// How many elements at the front of a rising row have smaller keys.
pub fn count_below<T: Keyed>(items: &[T], key: u64) -> usize
    ensures within { result ≤ length items.now }
    ensures cut { rising_from 0 (map T.Keyed.key items.now) ≡ true → Cut (map T.Keyed.key items.now) key result }
{
    items.partition_point(|item| item.key() < key)
}

// Where a key stands in a rising row, or the gap where it would go. Of any row it tells no index beyond the end.
pub fn locate<T: Keyed>(items: &[T], key: u64) -> Result<usize, usize>
    ensures within { Within (length items.now) result }
    ensures located { rising_from 0 (map T.Keyed.key items.now) ≡ true → Located (map T.Keyed.key items.now) key result }
{
    items.binary_search_by_key(&key, |item| item.key())
}
