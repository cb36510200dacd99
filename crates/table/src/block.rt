// A block of versions in a lent row, which holds just its bytes: the bound, then whole versions.
ghost use Rattle.std.specs.Prelude.{◌≡◌, None};
ghost use Rattle.table.specs.Reading.{block_bound, head_key, first_in, next_in, wanted_at, found_in};
ghost use Rattle.value.specs.Encoding.{end_of};

use value::{Place, byte, key_of, parse, part_of, read_u64};

// The moment of the version before the block, if that has the same key as its first; else 2^64 - 1.
pub fn bound(block: &[u8]) -> u64
    ensures { result ≡ block_bound block.now }
{
    read_u64(block, 0)
}

// Where the block's first version lies.
pub fn first(block: &[u8]) -> Option<Place>
    ensures { result ≡ first_in block.now }
{
    parse(block, 8)
}

// The key of the block's first version, of which no more than the key has to be there.
pub fn head_key(block: &[u8]) -> &[u8]
    ensures { result.now ≡ head_key block.now }
{
    part_of(block, 23, usize::from(byte(block, 8)))
}

// Where the version behind another lies.
pub fn next(block: &[u8], place: Place) -> Option<Place>
    ensures { result ≡ next_in block.now place }
{
    parse(block, place.value_at.checked_add(place.value_len)?)
}

fn is_wanted(block: &[u8], place: Place, key: &[u8], moment: u64) -> bool
    ensures { result ≡ wanted_at block.now key.now moment place }
{
    key_of(block, place) == key && place.moment < moment
}

// Where the first version of the key with a moment below this one lies.
pub fn find(block: &[u8], key: &[u8], moment: u64) -> Option<Place>
    ensures { result ≡ found_in block.now key.now moment }
{
    let mut at = first(block);
    // Left from inside by a label, as loops over what is in a block are by a rule of the project; a block has at most 94 versions.
    'versions: for i in 0..94usize {
        let Some(place) = at else {
            break 'versions;
        };
        if is_wanted(block, place, key, moment) {
            return at;
        }
        at = next(block, place);
    }
    None
}
