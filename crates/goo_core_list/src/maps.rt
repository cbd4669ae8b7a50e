//! Trees of the library as finite maps.
ghost use Rattle.std.specs.Prelude.{◌≡◌, IfOk, IfErr, IfSome, OnOk, OnErr, IsTrue, IsSome, OnSome};
ghost use Rattle.std.specs.FinMap.{FinMap, get, contains_key, insert, empty};
ghost use Rattle.std.specs.Option.{option_copied};
ghost use Rattle.goo_types.specs.declared.fault.Fault.TheVariants.{Memory};
ghost use Rattle.goo_core_shelf.specs.Maps.{map_of};

use crate::map_key::MapKey;
use goo_types::fault::Fault;
use std::alloc::Global;
use std::collections::BTreeMap;

/// A map without entries.
pub fn empty_map<K: MapKey, V>(alloc: Global) -> BTreeMap<K, V>
    ensures { map_of K.cmp result ≡ empty }
{
    BTreeMap::new(alloc)
}

/// What stands under a key.
pub fn find<'m, K: MapKey, V>(map: &'m BTreeMap<K, V>, key: &K) -> Option<&'m V>
    ensures { option_copied result ≡ get (map_of K.cmp map.now) key.now }
{
    map.get(key)
}

/// Puts a value under a key, and answers what stood there.
///
/// # Errors
///
/// `Memory` where an allocation was refused; the map is then unchanged.
pub fn put<K: MapKey, V: Drop>(
    map: &mut BTreeMap<K, V>,
    key: K,
    value: V,
) -> Result<Option<V>, Fault>
    ensures before { IfOk result (λ before. before ≡ get (map_of K.cmp map.old) key) }
    ensures done { OnOk result (map_of K.cmp map.new ≡ insert (map_of K.cmp map.old) key value) }
    ensures there { OnOk result (IsTrue (contains_key (map_of K.cmp map.new) key)) }
    ensures undone { OnErr result (map_of K.cmp map.new ≡ map_of K.cmp map.old) }
    ensures memory { IfErr result (λ fault. fault ≡ Memory) }
{
    match map.insert(key, value) {
        Ok(before) => Ok(before),
        Err(_) => Err(Fault::Memory),
    }
}

/// Puts back what stood under a key before a value was put there.
pub fn put_back<K: MapKey, V: Drop>(map: &mut BTreeMap<K, V>, key: K, before: Option<V>)
    requires { IsTrue (contains_key (map_of K.cmp map.old) key) }
    ensures { (m : FinMap K.cmp V) (value : V) → map_of K.cmp map.old ≡ insert m key value
        → before ≡ get m key → map_of K.cmp map.new ≡ m }
{
    match before {
        Some(value) => {
            let put: Result<_, _> = map.insert(key, value);
            put.unwrap();
        }
        None => {
            map.remove(&key);
        }
    }
}
