// Tests of the queue and of the simplification of resolvents, run on small cases. Rests on `queue` and `lemmas`.
#![tactic(auto)]

#[cfg(test)]
mod tests {
    use lemmas::Lemmas;
    use queue::{Queue, Resolvents, WaitingNodes};

    // {2,6} and {3,6} become {6}, which {6,8} has, and {5,7,9} stays.
    #[test]
    fn resolvents_become_fewer(rt: HostRuntime) {
        let mut lengths = [3, 2, 2, 2];
        let mut literals = [0u32; 128];
        literals[..3].copy_from_slice(&[5, 7, 9]);
        literals[32..34].copy_from_slice(&[2, 6]);
        literals[64..66].copy_from_slice(&[3, 6]);
        literals[96..98].copy_from_slice(&[6, 8]);
        let mut order = [9u32; 4];
        let mut words = Lemmas {
            lengths: &mut lengths,
            literals: &mut literals,
            order: &mut order,
            entries: &mut [0u32; 4],
            places: &mut [0u32; 4],
        };
        let left = words.lemmas_subsume_simplify(4);
        assert_eq!(rt; left, Some(2));
        assert!(rt;
            order[0] == 1 && order[1] == 0,
            "what is left is named first"
        );
        assert_eq!(rt; lengths[1], 1);
        assert_eq!(rt; literals[32], 6);
    }

    #[test]
    fn short_words_are_refused(rt: HostRuntime) {
        let mut order = [7u32; 1];
        let mut words = Lemmas {
            lengths: &mut [1, 1],
            literals: &mut [2u32; 64],
            order: &mut order,
            entries: &mut [0u32; 2],
            places: &mut [0u32; 2],
        };
        let left = words.lemmas_subsume_simplify(2);
        assert_eq!(rt; left, None);
        assert_eq!(rt; order, [7]);
    }

    // Nodes 1 to 3 wait with the sums 4, 2, 4; then node 1's sum falls to 1.
    #[test]
    fn changed_counts_move_a_node(rt: HostRuntime) {
        let mut counts = [0, 0, 2, 2, 1, 1, 4, 0];
        let mut entries = [0u32; 4];
        let mut places = [0u32; 4];
        let mut queue = Queue::new(&mut entries, &mut places);
        assert!(rt; queue.build(&WaitingNodes { counts: &counts }, 1, 4));
        counts[2] = 0;
        counts[3] = 1;
        queue.changed(&WaitingNodes { counts: &counts }, 1);
        assert_eq!(rt; queue.pop(&WaitingNodes { counts: &counts }), Some(1));
        assert_eq!(rt; queue.pop(&WaitingNodes { counts: &counts }), Some(2));
        assert_eq!(rt; queue.pop(&WaitingNodes { counts: &counts }), Some(3));
        assert_eq!(rt; queue.pop(&WaitingNodes { counts: &counts }), None);
    }

    #[test]
    fn resolvents_by_length_then_arrival(rt: HostRuntime) {
        let order = Resolvents {
            lengths: &[3, 1, 3, 2],
        };
        let mut entries = [0u32; 4];
        let mut places = [0u32; 4];
        let mut queue = Queue::new(&mut entries, &mut places);
        assert!(rt; queue.push(&order, 2) && queue.push(&order, 0) && queue.push(&order, 3));
        assert!(rt; !queue.push(&order, 0), "it waits already");
        assert!(rt; !queue.push(&order, 4), "the index has no word for it");
        assert_eq!(rt; queue.pop(&order), Some(3));
        assert_eq!(rt; queue.pop(&order), Some(0));
        assert_eq!(rt; queue.pop(&order), Some(2));
    }
}
