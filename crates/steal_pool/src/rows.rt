//! Worked examples of when a pool's worker takes a pick, computed from the definitions alone. `is_due` has how many
//! tasks were begun since the last pick.
ghost use Rattle.std.specs.Prelude.{◌≡◌, true, false};
ghost use Rattle.steal_pool.specs.Orders.{is_due, since_after};
ghost use Rattle.steal_pool.specs.declared.order.Order.TheVariants.{Specified, WithPicks};

/// 127 tasks of the deques are begun, and the 128th is a pick. Where it finds none it stays due. In the specified order none ever is.
pub fn many_tasks_and_a_pick()
    ensures first { is_due WithPicks 0 ≡ false }
    ensures last { is_due WithPicks 126 ≡ false }
    ensures pick { is_due WithPicks 127 ≡ true }
    ensures counts { since_after WithPicks 126 ≡ 127 }
    ensures stays { since_after WithPicks 127 ≡ 127 }
    ensures never { is_due Specified 127 ≡ false }
{}
