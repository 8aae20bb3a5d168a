use crate::Core;
use own_tree::place::Place;
use own_tree::placement::Flag;
use own_tree::row::Row;
use std::test::Fail;

#[test]
fn a_core_has_the_flags_that_it_was_made_with(rt: HostRuntime) -> Result<(), Fail> {
    let mut flags = Row::new(rt.alloc());
    for binding in [4, 7] {
        let place = Place {
            binding,
            fields: Row::new(rt.alloc()),
        };
        flags.push(Flag { body: 1, place })?;
    }
    let core = Core {
        functions: Row::new(rt.alloc()),
        main: 0,
        texts: Row::new(rt.alloc()),
        flags,
    };
    assert_eq!(rt; core.flags().len(), 2);
    let mut bindings = core.flags().iter().map(|flag| flag.place.binding);
    assert_eq!(rt; bindings.next(), Some(4));
    assert_eq!(rt; bindings.next(), Some(7));
    Ok(())
}
