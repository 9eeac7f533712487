// Tests of the intake at its edges: the header, the runs, the rows, `froze`, and what a refusal leaves. Rests on `intake` and
// `input`; each test is proved safe and then run.
#![tactic(auto)]

#[cfg(test)]
mod tests {
    use image::fault::Fault;
    use input::bytes::decode;
    use input::opening::open_input;
    use intake::state::Intake;
    use intake::taken::take_in;
    use std::alloc::{AllocError, Global};
    use std::test::Fail;

    // What take-in answers of an image.
    fn taken(words: &[u32]) -> Result<(), Fault> {
        let mut intake = Intake::smallest();
        take_in(words, &mut intake)
    }

    fn at(number: u32, place: u32) -> Fault {
        Fault { number, place }
    }

    // An image of so many nodes without clauses.
    fn empty_runs(heap: Global, top: u32) -> Result<Vec<u32>, AllocError> {
        let mut words = vec![in heap; top, 0]?;
        words.resize(top as usize + 3, top.saturating_add(3))?;
        Ok(words)
    }

    // Node `top` has one clause of the literals of the nodes 1 to `top`, all true.
    fn one_wide(heap: Global, top: u32) -> Result<Vec<u32>, AllocError> {
        let mut words = vec![in heap; top, 1]?;
        words.resize(top as usize + 2, top.saturating_add(3))?;
        words.push(top.saturating_mul(2).saturating_add(4))?;
        words.push(top)?;
        words.extend((1..=top).map(|n| n.saturating_mul(2)))?;
        Ok(words)
    }

    // Images, each with what take-in answers: a refusal by its number and place.
    const CASES: [(&[u32], Result<(), (u32, u32)>); 23] = [
        (&[0, 0, 3], Ok(())),
        (&[], Err((1, 0))),
        (&[0, 0], Err((1, 0))),
        // an offset is missing
        (&[1, 0, 4], Err((1, 0))),
        // the first offset, the last one, falling ones
        (&[0, 0, 4], Err((1, 0))),
        (&[0, 0, 3, 0], Err((1, 0))),
        (&[2, 0, 5, 6, 5, 0], Err((1, 0))),
        // a highest node at which a sum of words would wrap
        (&[4294967295, 0, 2], Err((1, 0))),
        // lengths: 0, past the end, far past the end
        (&[1, 1, 4, 5, 0], Err((2, 1))),
        (&[1, 1, 4, 6, 2, 2], Err((2, 1))),
        (&[1, 1, 4, 6, 4294967295, 2], Err((2, 1))),
        // falling literals, a node twice
        (&[2, 1, 5, 5, 8, 2, 4, 2], Err((3, 2))),
        (&[1, 1, 4, 7, 2, 2, 3], Err((3, 1))),
        // a clause of a higher and of a lower node
        (&[1, 1, 4, 6, 1, 4], Err((4, 1))),
        (&[1, 1, 4, 6, 1, 0], Err((4, 1))),
        // the number of clauses, right and wrong by one
        (&[1, 1, 4, 6, 1, 2], Ok(())),
        (&[1, 2, 4, 6, 1, 2], Err((7, 0))),
        (&[1, 0, 4, 6, 1, 2], Err((7, 0))),
        // literal 0 is false, literal 1 is true
        (&[1, 2, 4, 9, 2, 0, 2, 1, 3], Err((6, 1))),
        (&[1, 2, 4, 9, 2, 1, 2, 1, 3], Ok(())),
        // a row without a value, and none such
        (&[2, 2, 5, 5, 11, 2, 2, 4, 2, 2, 5], Err((6, 2))),
        (&[2, 2, 5, 5, 11, 2, 2, 4, 2, 3, 4], Ok(())),
        // the faults of a lower node come first: node 1 clashes, node 2 is cut
        (&[2, 3, 5, 9, 11, 1, 2, 1, 3, 2, 4], Err((6, 1))),
    ];

    #[test]
    fn images(rt: HostRuntime) {
        for (words, answer) in CASES {
            assert_eq!(rt;
                taken(words),
                answer.map_err(|(number, place)| at(number, place))
            );
        }
    }

    #[test]
    fn most_nodes(rt: HostRuntime) -> Result<(), Fail> {
        assert_eq!(rt; taken(empty_runs(rt.alloc(), 1023)?.as_slice()), Ok(()));
        assert_eq!(rt;
            taken(empty_runs(rt.alloc(), 1024)?.as_slice()),
            Err(at(1, 0))
        );
        Ok(())
    }

    #[test]
    fn wide(rt: HostRuntime) -> Result<(), Fail> {
        assert_eq!(rt;
            taken(one_wide(rt.alloc(), 9)?.as_slice()),
            Ok(()),
            "eight lower nodes"
        );
        assert_eq!(rt;
            taken(one_wide(rt.alloc(), 10)?.as_slice()),
            Err(at(5, 10)),
            "nine lower nodes"
        );
        Ok(())
    }

    #[test]
    fn freezing(rt: HostRuntime) {
        let mut intake = Intake::smallest();
        assert_eq!(rt; take_in(&[2, 1, 5, 5, 8, 2, 2, 4], &mut intake), Ok(()));
        assert_eq!(rt; intake.loose(), Some(1));
        assert_eq!(rt; intake.froze(3), Err(at(8, 3)));
        assert_eq!(rt; intake.froze(1), Ok(()));
        assert_eq!(rt; intake.froze(1), Ok(()), "a node again");
        assert_eq!(rt; intake.froze(0), Ok(()), "node 0");
        assert_eq!(rt; intake.loose(), Some(2));
        assert_eq!(rt; intake.froze(2), Ok(()));
        assert_eq!(rt; intake.loose(), None);
    }

    #[test]
    fn refusals_change_nothing(rt: HostRuntime) {
        let mut intake = Intake::smallest();
        assert_eq!(rt; open_input(&[1, 1, 1, 1, 4, 6, 1, 2], &mut intake), Ok(()));
        assert_eq!(rt; take_in(&[1, 1, 4, 6, 1, 4], &mut intake), Err(at(4, 1)));
        assert_eq!(rt;
            open_input(&[1, 2, 1, 1, 4, 6, 1, 2], &mut intake),
            Err(at(8, 2))
        );
        assert_eq!(rt;
            open_input(&[9, 1, 1, 1, 4, 6, 1, 2], &mut intake),
            Err(at(1, 0))
        );
        assert_eq!(rt; intake.top(), 1);
        assert_eq!(rt; intake.clause_count(), 1);
        assert!(rt; intake.is_frozen(1) && !intake.is_frozen(2) && !intake.is_frozen(4000000000));
    }

    #[test]
    fn bytes(rt: HostRuntime) {
        let mut words = [7u32; 16384];
        assert_eq!(rt;
            decode(&[1, 2, 3, 4, 255, 255, 255, 255], &mut words),
            Ok(2)
        );
        assert_eq!(rt; words[0], 67305985);
        assert_eq!(rt; words[1], 4294967295);
        assert_eq!(rt; words[2], 7, "words beyond stay");
        assert_eq!(rt; decode(&[1, 2, 3], &mut words), Err(at(1, 0)));
        assert_eq!(rt; decode(&[0; 65536], &mut words), Ok(16384));
        assert_eq!(rt; decode(&[0; 65540], &mut words), Err(at(1, 0)));
    }
}
