ghost use Rattle.std.specs.Prelude.{◌≡◌, ◌<◌, ◌-◌, length, IfOk};
ghost use Rattle.co_words.specs.Chains as chains;

use co_base::NoMemory;
use std::alloc::Global;

/// A block of storage: how many words it has, and its first word.
#[derive(Clone, Copy)]
pub struct Block {
    pub size: u64,
    pub place: u64,
}

/// A link of a chain of blocks: the place of the next older link of the chain, and how many links are older.
#[derive(Clone, Copy)]
pub struct Link {
    pub block: Block,
    pub older: u32,
    pub rank: u32,
}

/// A chain of blocks: the place of its newest link, and how many links it has.
#[derive(Clone, Copy)]
pub struct Chain {
    pub newest: u32,
    pub count: u32,
}

/// That many links, which are one chain of free ones.
pub fn free_links(alloc: Global, count: u32) -> Result<Vec<Link>, NoMemory>
    ensures { IfOk result (λ v. (length v.items ≡ count) × chains.Chained v.items 1025 count (count - 1)) }
{
    let mut links = Vec::with_capacity(alloc, count as usize)?;
    for n in 0..count {
        links.push(Link {
            block: Block {
                size: 1025,
                place: 0,
            },
            older: n.saturating_sub(1),
            rank: n,
        })?;
    }
    Ok(links)
}

/// That many chains without a link.
pub fn empty_chains(alloc: Global, count: u32) -> Result<Vec<Chain>, NoMemory>
    ensures { IfOk result (λ v. (length v.items ≡ count) × chains.AllEmpty v.items) }
{
    let mut list = Vec::with_capacity(alloc, count as usize)?;
    for n in 0..count {
        list.push(Chain {
            newest: n,
            count: 0,
        })?;
    }
    Ok(list)
}

/// The newest link of `from` becomes the newest of `to`, with this block. The two chains then.
pub fn move_link(links: &mut Vec<Link>, from: Chain, to: Chain, block: Block) -> (Chain, Chain)
    requires { (from.newest < length links.old.items) × (0 < from.count) × (to.count < 4096) }
    ensures links { links.new.items ≡ chains.moved links.old.items from to block }
    ensures first { result.0 ≡ chains.shorter links.old.items from }
    ensures second { result.1 ≡ chains.longer from to }
{
    let older = links[from.newest as usize].older;
    links[from.newest as usize] = Link {
        block,
        older: to.newest,
        rank: to.count,
    };
    let shorter = Chain {
        newest: older,
        count: from.count - 1,
    };
    let longer = Chain {
        newest: from.newest,
        count: to.count + 1,
    };
    (shorter, longer)
}
