// Shows that the files of trees/ hold the trees of the crate trees, and replays stored answers of an independent reader of images.
#![tactic(auto)]

mod answer;
mod house;
mod largest;
mod sample;

fn main(rt: HostRuntime) {
    house::all(&rt);
    sample::all(&rt);
    largest::all(&rt);
}
