use any_model::any_model::AnyModel;
use groups::standing::check_group;
use matrix::matrix::Matrix;
use network::graph::Graph;
use network::network::Network;
use sets::member_set::MemberSet;
use std::test::Fail;
use vocabulary::model_kind::ModelKind;
use vocabulary::model_kind::ModelKind::{EdgeTriangle, Hereditary, Plain, Robust, VertexTriangle};
use vocabulary::refusal::Refusal;
use vocabulary::standing::Standing;
use worked::example::Example;

fn set_of(numbers: &[u32]) -> MemberSet {
    numbers
        .iter()
        .fold(MemberSet::empty(), |set, a| set.with(*a))
}

#[test]
fn sets_are_ordered_by_size_then_by_first_member(rt: HostRuntime) {
    let one_four = set_of(&[4, 1]);
    let two_three = set_of(&[2, 3, 65, 0]);
    assert!(rt;
        one_four.is_better_than(two_three),
        "1 is the first member in which they differ"
    );
    assert!(rt; !two_three.is_better_than(one_four));
    assert!(rt; !one_four.is_better_than(one_four));
    assert!(rt; two_three.is_better_than(set_of(&[1])), "more members");
    assert!(rt; set_of(&[64]).beats(None));
    assert!(rt; !MemberSet::empty().beats(None));
}

#[test]
fn members_come_in_ascending_order(rt: HostRuntime) {
    let members = set_of(&[64, 9, 1, 30]).members();
    assert!(rt; members.eq([1, 9, 30, 64]));
}

#[test]
fn a_full_matrix_holds_every_link(rt: HostRuntime) -> Result<(), Fail> {
    let mut net = Matrix::new(64)?;
    for a in 1..=64u32 {
        for b in 1..a {
            net.link(a, b)?;
        }
    }
    assert_eq!(rt; net.link(1, 64), Err(Refusal::AlreadyLinked));
    net.unlink(64, 1)?;
    assert!(rt; !net.linked(1, 64));
    assert_eq!(rt; net.unlink(1, 64), Err(Refusal::NotLinked));
    net.link(1, 64)?;
    assert_eq!(rt; Graph::of(&net).shared(1, 64, MemberSet::up_to(9)), 8);
    Ok(())
}

/// How the members named stand in the example under the model.
fn standing_in(
    example: Example,
    kind: ModelKind,
    t: u32,
    numbers: &[u32],
) -> Result<Standing, Refusal> {
    let mut net = Matrix::new(example.members())?;
    for (a, b) in example.links() {
        net.link(*a, *b)?;
    }
    let model = AnyModel::new(kind, t)?;
    let graph = Graph::of(&net);
    Ok(check_group(&model, &graph.induced(set_of(numbers))))
}

#[test]
fn the_small_networks_stand_as_known(rt: HostRuntime) -> Result<(), Fail> {
    let (star, prism, rows, path) = (
        Example::Star,
        Example::Prism,
        Example::TwoRows,
        Example::Path,
    );
    let six: &[u32] = &[1, 2, 3, 4, 5, 6];
    let known: [(Example, ModelKind, u32, &[u32], Standing); 15] = [
        (star, Plain, 0, &[1, 2, 3, 4, 5], Standing::Group),
        (star, Plain, 0, &[2, 3], Standing::Apart(2, 3)),
        (star, VertexTriangle, 0, &[1, 2], Standing::Loose(1)),
        (prism, VertexTriangle, 0, six, Standing::Group),
        (prism, EdgeTriangle, 0, six, Standing::Apart(1, 4)),
        (prism, EdgeTriangle, 0, &[6, 5, 4], Standing::Group),
        (prism, Robust, 2, &[1, 2, 3], Standing::Group),
        (prism, Robust, 3, &[1, 2, 3], Standing::Apart(1, 2)),
        (rows, Hereditary, 2, six, Standing::Group),
        (rows, Hereditary, 3, six, Standing::Apart(1, 2)),
        (rows, Robust, 1, six, Standing::Group),
        (rows, Robust, 2, six, Standing::Apart(1, 4)),
        (path, Plain, 0, &[1, 3], Standing::Apart(1, 3)),
        (path, Plain, 0, &[1, 4], Standing::Unknown(4)),
        (path, Plain, 0, &[], Standing::Empty),
    ];
    for (example, kind, t, numbers, standing) in known {
        assert_eq!(rt; standing_in(example, kind, t, numbers)?, standing);
    }
    Ok(())
}

#[test]
fn a_parameter_out_of_range_makes_no_model(rt: HostRuntime) {
    let (taken, refused) = (Ok(Standing::Group), Err(Refusal::BadParameter));
    let known = [
        (Plain, 1, refused),
        (Robust, 0, refused),
        (Robust, 64, taken),
        (Robust, 65, refused),
        (Hereditary, 63, taken),
        (Hereditary, 64, refused),
        (VertexTriangle, 1, refused),
        (EdgeTriangle, 1, refused),
    ];
    for (kind, t, outcome) in known {
        assert_eq!(rt; standing_in(Example::Path, kind, t, &[1]), outcome);
    }
}
