use low_arith::checked;
use own_tree::Arith;
use std::test::Fail;

#[test]
fn memory_suffices_for_each_operation(rt: HostRuntime) -> Result<(), Fail> {
    for (op, instructions) in [
        (Arith::Add, 14),
        (Arith::Sub, 14),
        (Arith::Mul, 7),
        (Arith::Div, 14),
        (Arith::Rem, 14),
        (Arith::Neg, 7),
    ] {
        assert_eq!(rt; checked(rt.alloc(), op, 7)?.len(), instructions);
    }
    Ok(())
}
