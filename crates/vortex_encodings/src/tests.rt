use crate::ArrayRegistry;
use crate::schema::DICT;
use std::test::Fail;

#[test]
fn all_encodings_but_that_of_dictionaries(rt: HostRuntime) -> Result<(), Fail> {
    let registry = ArrayRegistry::canonical_only();
    let held = [
        "vortex.null",
        "vortex.bool",
        "vortex.primitive",
        "vortex.decimal",
        "vortex.varbin",
        "vortex.list",
        "vortex.fixed_size_list",
        "vortex.struct",
        "vortex.ext",
        "vortex.constant",
    ];
    for name in held {
        assert!(rt; registry.holds(name));
    }
    assert!(rt; DICT == "vortex.dict");
    for name in [DICT, "vortex.nul", "vortex.null ", "VORTEX.NULL", ""] {
        assert!(rt; !registry.holds(name));
    }
    Ok(())
}
