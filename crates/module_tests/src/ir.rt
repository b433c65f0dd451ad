//! The intermediate representation, and what is known of a module.
use naga_info::ToCtx;
use naga_ir::{Arena, Expression, ItemIndex, Literal, Module, Range, Scalar};

#[test]
fn an_item_of_an_arena_is_changed(rt: HostRuntime) {
    let mut expressions = Arena::new(rt.alloc());
    let one = Expression::Literal(Literal::I32(1));
    let first = expressions.append(one).expect(&rt, "memory");
    *expressions.get_mut(first) = Expression::Literal(Literal::U64(2));
    match &expressions[first] {
        Expression::Literal(literal) => assert_eq!(rt; literal.scalar(), Scalar::U64),
        _ => panic!(rt; "a literal stands there"),
    }
}

#[test]
fn ranges_are_made_from_their_ends(rt: HostRuntime) {
    let range = Range::new_from_bounds(ItemIndex::from_index(2), ItemIndex::from_index(4));
    assert_eq!(rt; range, Range { first: 2, end: 5 });
    let least = ItemIndex::from_index(usize::MAX);
    assert_eq!(rt; Range::new_from_bounds(least, least).end, usize::MAX);
}

#[test]
fn a_module_has_a_context(rt: HostRuntime) {
    let shader = Module::new(rt.alloc());
    let context = shader.to_ctx();
    assert_eq!(rt; (context.types.len(), context.overrides.len()), (0, 0));
}
