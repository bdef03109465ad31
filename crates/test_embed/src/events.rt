// The events of a morning.
ghost use Rattle.std.specs.Prelude.{IfOk};
ghost use Rattle.spec_world.specs.private.Laws.{HasDistinctFiles};
ghost use Rattle.test_embed.specs.private.Answers.{HaveDistinctFiles};

use pr_outside::words_crate::{Items, Text};
use spec_world::labels::Labels;
use spec_world::time::Ms;
use spec_world::{Event, NamedFile};
use std::alloc::{AllocError, Global};

// One rule file takes the place of all.
fn reload(alloc: Global, time: Ms, rules: Vec<u8>) -> Result<Event, AllocError>
    ensures { IfOk result HasDistinctFiles }
{
    let name = Text::from_str(alloc, "web.yml")?;
    let bytes = Items::new(rules);
    let files = Items::new(vec![in alloc; NamedFile { name, bytes }]?);
    Ok(Event::Reload { time, files })
}

// A group of that file is evaluated.
fn evaluate(alloc: Global, time: Ms) -> Result<Event, AllocError>
    ensures { IfOk result HasDistinctFiles }
{
    Ok(Event::Eval {
        time,
        file: Text::from_str(alloc, "web.yml")?,
        group: Text::from_str(alloc, "web")?,
    })
}

/// Rules are loaded, a target is scraped and offers samples, a group of the rules is evaluated, a
/// query is asked, and the engine begins anew over the rows that it has kept.
pub fn morning(
    alloc: Global,
    time: Ms,
    rules: Vec<u8>,
    offered: Vec<u8>,
) -> Result<Vec<Event>, AllocError>
    ensures { IfOk result (λ events. HaveDistinctFiles events.items) }
{
    let target = Labels::empty(alloc);
    let body = Items::new(offered);
    let text = Text::from_str(alloc, "job:requests:sum")?;
    let (loaded, evaluated) = (reload(alloc, time, rules)?, evaluate(alloc, time)?);
    Ok(vec![in alloc;
        loaded,
        Event::Scrape { time, target, body },
        evaluated,
        Event::Query { time, text },
        Event::Restart { time },
    ]?)
}
