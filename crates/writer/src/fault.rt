// One F of a network without a bad split.
ghost use Rattle.writer.specs.Site.{Ready};

use blocks::Site;
use choice::weak::Weak;

// What its blocks are chosen by, and what they are written by.
#[derive(Clone, Copy, Drop)]
pub(crate) struct Fault<'a> {
    pub(crate) weak: Weak<'a>,
    pub(crate) site: Site,
    ghost ready: { Ready weak.network.now.n weak.network.now.f weak.network.now.links weak.fault site },
}
