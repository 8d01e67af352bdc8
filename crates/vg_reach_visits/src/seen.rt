// What was looked at.
ghost use Rattle.std.specs.Prelude.{◌≡◌, IfOk, OnOk};
ghost use Rattle.vg_reach_visits.specs.Visited as visited;
ghost use Rattle.vg_reach_visits.specs.Visited.{first_at, IsNew, PutsFirst, PutsSite};

use std::alloc::Global;
use vg_base::NoMemory;
use vg_core::Step;
use vg_reach_marks::Marks;

/// A call or a naming of a method on a static class, in a method that was looked at.
#[derive(Clone, Copy, Debug, PartialEq, Eq)]
pub struct Site {
    pub method: u16,
    pub class: u16,
    pub selector: u16,
}

/// For each class the first object of its own that was looked at, and the sites in the methods that were.
#[derive(Drop)]
pub struct Seen {
    pub classes: u16,
    pub firsts: Vec<Option<u32>>,
    pub sites: Vec<Site>,
}

/// The members that are marked, and what of them was looked at.
#[derive(Drop)]
pub struct Work {
    pub marks: Marks,
    pub seen: Seen,
}

impl Seen {
    /// Nothing was looked at, in so many classes.
    pub fn new(alloc: Global, classes: u16) -> Result<Self, NoMemory>
        ensures { IfOk result (λ seen. IsNew seen classes) }
    {
        Ok(Seen {
            classes,
            firsts: Vec::from_elem(alloc, None, usize::from(classes))?,
            sites: Vec::new(alloc),
        })
    }

    /// The first object of a class that was looked at.
    pub fn first(&self, class: u16) -> Option<u32>
        ensures { result ≡ first_at self.now class }
    {
        match self.firsts.as_slice().get(usize::from(class)) {
            Some(first) => *first,
            None => None,
        }
    }

    /// Keeps the first object of a class.
    pub fn put_first(&mut self, class: u16, cell: u32)
        ensures { PutsFirst self.old self.new class cell }
    {
        let place = usize::from(class);
        if place < self.firsts.len() {
            self.firsts[place] = Some(cell);
        }
    }

    /// Puts a site behind those that are there.
    pub fn put_site(&mut self, site: Site) -> Result<(), NoMemory>
        ensures { OnOk result (PutsSite self.old self.new site) }
    {
        self.sites.push(site)?;
        Ok(())
    }
}

/// What a step of a method calls or names as a value on an object.
pub fn site_of(method: u16, step: Step) -> Option<Site>
    ensures { result ≡ visited.site_of method step }
{
    match step {
        Step::CallMethod(_, class, selector, _) => Some(Site {
            method,
            class,
            selector,
        }),
        Step::MethodOf(_, class, selector) => Some(Site {
            method,
            class,
            selector,
        }),
        _ => None,
    }
}
