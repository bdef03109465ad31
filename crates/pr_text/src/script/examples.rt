// What the definitions say of small scripts.
ghost use Rattle.std.specs.Prelude.{◌≡◌, codes, [], ◌∷◌, None};
ghost use Rattle.std.specs.Str.{bytes_eq};
ghost use Rattle.spec_world.specs.pr_labels.LabelSet.{pair_of};
ghost use Rattle.spec_world.specs.declared.event.Event.TheVariants as event;
ghost use Rattle.pr_text.specs.Orders.{blocks_by, order_of, orders_of};
ghost use Rattle.pr_text.specs.Reloads.{file_of};
ghost use Rattle.pr_text.specs.declared.script.order.Order.TheVariants.{Event, Reload, Receiver, Flush, Bad};

/// The body lines that directly follow a line that takes a body are one order with it. Any other
/// line ends the body, also an empty one, and a body line after that stands alone. Lines keep their
/// numbers.
pub fn a_body_belongs_to_its_line()
    ensures whole { blocks_by (bytes_eq (codes "s")) 0 (codes "s" ∷ codes "|a" ∷ codes "|b" ∷ codes "x" ∷ [])
        ≡ (record { number = 1; line = codes "s"; body = codes "|a" ∷ codes "|b" ∷ [] })
        ∷ (record { number = 4; line = codes "x"; body = [] }) ∷ [] }
    ensures ended { blocks_by (bytes_eq (codes "s")) 0 (codes "s" ∷ codes "|a" ∷ [] ∷ codes "|b" ∷ [])
        ≡ (record { number = 1; line = codes "s"; body = codes "|a" ∷ [] })
        ∷ (record { number = 3; line = []; body = [] }) ∷ (record { number = 4; line = codes "|b"; body = [] }) ∷ [] }
    ensures twice { blocks_by (bytes_eq (codes "s")) 0 (codes "|a" ∷ codes "s" ∷ codes "s" ∷ codes "|b" ∷ [])
        ≡ (record { number = 1; line = codes "|a"; body = [] })
        ∷ (record { number = 2; line = codes "s"; body = [] }) ∷ (record { number = 3; line = codes "s"; body = codes "|b" ∷ [] }) ∷ [] }
{}

/// A scrape has what its body lines give: each gives what stands behind its bar, with the blanks at
/// its end, and a line feed.
pub fn a_scrape_has_its_body()
    ensures { orders_of (codes "scrape 7 {a='b'}" ∷ codes "|m 1 " ∷ codes "|" ∷ [] ∷ codes "|n" ∷ [])
        ≡ (record { number = 1; order = Event (event.Scrape 7 (pair_of (codes "a") (codes "b") ∷ []) (codes "m 1 \n\n")) })
        ∷ (record { number = 5; order = Bad }) ∷ [] }
{}

/// A target has labels, at least one, and none of them is a metric's name.
pub fn a_target_has_labels()
    ensures fail { order_of (codes "fail 7 {a='b'}") [] ≡ Event (event.Fail 7 (pair_of (codes "a") (codes "b") ∷ [])) }
    ensures gone { order_of (codes "gone 7 {a='b'} ") [] ≡ Event (event.Gone 7 (pair_of (codes "a") (codes "b") ∷ [])) }
    ensures empty { order_of (codes "scrape 7 {}") [] ≡ Bad }
    ensures metric { order_of (codes "scrape 7 m") [] ≡ Bad }
{}

/// A line that asks for nothing is no order, and is counted once.
pub fn lines_that_ask_for_nothing_are_counted()
    ensures { orders_of ([] ∷ codes " " ∷ codes "x" ∷ codes "|x" ∷ [])
        ≡ (record { number = 3; order = Bad }) ∷ (record { number = 4; order = Bad }) ∷ [] }
{}

/// An evaluation names a file, which has no blank, and then a group, which may have some. A restart,
/// and the order for alerts, name nothing.
pub fn groups_are_asked_for_so()
    ensures eval { order_of (codes "eval 7 r.yml the g ") [] ≡ Event (event.Eval 7 (codes "r.yml") (codes "the g")) }
    ensures no_group { order_of (codes "eval 7 r.yml") [] ≡ Bad }
    ensures restart { order_of (codes "restart 7") [] ≡ Event (event.Restart 7) }
    ensures alerts { order_of (codes "alerts 7") [] ≡ Event (event.Alerts 7) }
    ensures more { order_of (codes "alerts 7 x") [] ≡ Bad }
{}

/// A reload names files, at least one, and says by which names they are to be known; a file alone is
/// known by its own. The first sign parts the two. No two are known by one name.
pub fn a_reload_names_files()
    ensures files { order_of (codes "reload 7 a.yml b=c=d") []
        ≡ Reload 7 ((record { name = codes "a.yml"; file = codes "a.yml" }) ∷ (record { name = codes "b"; file = codes "c=d" }) ∷ []) }
    ensures none { order_of (codes "reload 7") [] ≡ Bad }
    ensures unnamed { file_of (codes "=b") ≡ None }
    ensures unfiled { file_of (codes "b=") ≡ None }
    ensures twice { order_of (codes "reload 7 b b=c") [] ≡ Bad }
{}

/// A receiver is named by one field, in both orders.
pub fn receivers_are_named_so()
    ensures receiver { order_of (codes "receiver a ") [] ≡ Receiver (codes "a") }
    ensures flush { order_of (codes "flush \ta") [] ≡ Flush (codes "a") }
    ensures no_name { order_of (codes "receiver") [] ≡ Bad }
    ensures two { order_of (codes "flush a b") [] ≡ Bad }
    ensures time { order_of (codes "receiver 7 a") [] ≡ Bad }
{}
