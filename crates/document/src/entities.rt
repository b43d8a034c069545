// Entities, and the limits on those that a centre stands for.
ghost use Rattle.std.specs.Prelude.{◌≡◌};
ghost use Rattle.std.specs.List.{list_all};
ghost use Rattle.packed.specs.Every.{member};
ghost use Rattle.document.specs.Entities.{is_entity, entities_good};

// The largest entity code.
pub const LARGEST_ENTITY: u16 = 9999;

// How many entities a centre may represent.
pub const MOST_REPRESENTED: usize = 8;

fn all_entities(some: &[u16]) -> bool
    ensures { result ≡ list_all is_entity some.now }
{
    some.iter().all(|e| *e <= LARGEST_ENTITY)
}

// Whether own and represented entities are within the limits of a start. None is read where there are too many.
pub fn entities_good(own: u16, represented: &[u16]) -> bool
    ensures { result ≡ entities_good own represented.now }
{
    if MOST_REPRESENTED < represented.len() {
        return false;
    }
    (own <= LARGEST_ENTITY) & all_entities(represented)
}

// Whether an entity is among some.
pub fn is_member(e: u16, some: &[u16]) -> bool
    ensures { result ≡ member e some.now }
{
    some.contains(&e)
}
