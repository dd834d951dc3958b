//! Items in groups, to look up by what those of a group have in common, and the places of keys.
ghost use Rattle.std.specs.Prelude.{◌≡◌, IfOk, map, filter, position, []};
ghost use Rattle.std.specs.Option.{option_map_or};
ghost use Rattle.std.specs.HashMap.{get};

use qe_text::Memory;
use std::alloc::Global;
use std::collections::HashMap;
use std::hash::Hash;

/// The items that have the same key, each group in the order of its items.
pub fn grouped<K: Eq + Hash + Copy + Drop, V: Copy + Drop>(
    alloc: Global,
    items: &[(K, V)],
) -> Result<HashMap<K, Vec<V>>, Memory>
    ensures { IfOk result (λ groups. (key : K) → option_map_or (λ group. group.items) (get K.eq groups key) [] ≡ map (λ item. item.1) (filter (λ item. K.eq item.0 key) items.now)) }
{
    let mut groups: HashMap<K, Vec<V>> = HashMap::new(alloc);
    for (key, value) in items {
        let mut group = groups.remove(key).unwrap_or(Vec::new(alloc));
        group.push(*value)?;
        groups.insert(*key, group)?;
    }
    Ok(groups)
}

/// The first place of each key, from 0.
#[tactic(auto, using(crate::proofs::Placed::all_placed))]
pub fn first_places<K: Eq + Hash + Copy + Drop>(
    alloc: Global,
    keys: &[K],
) -> Result<HashMap<K, usize>, Memory>
    ensures { IfOk result (λ places. (key : K) → get K.eq places key ≡ position (K.eq key) keys.now) }
{
    let mut places = HashMap::new(alloc);
    let mut place = keys.len();
    'keys: while place > 0 {
        place -= 1;
        places.insert(keys[place], place)?;
    }
    Ok(places)
}
