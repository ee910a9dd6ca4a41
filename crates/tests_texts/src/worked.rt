// The worked programs.

/// A function that returns its argument, and a `main` with 24 locals that are live across a call of it.
pub const LONG: &str =
    "int f(int x){return x;}int main(void){int v1=read_word();int v2=read_word();int v3=read_word();int v4=read_word();int v5=read_word();int v6=read_word();int v7=read_word();int v8=read_word();int v9=read_word();int v10=read_word();int v11=read_word();int v12=read_word();int v13=read_word();int v14=read_word();int v15=read_word();int v16=read_word();int v17=read_word();int v18=read_word();int v19=read_word();int v20=read_word();int v21=read_word();int v22=read_word();int v23=read_word();int v24=read_word();write_word(f(0));write_word(v1+v2+v3+v4+v5+v6+v7+v8+v9+v10+v11+v12+v13+v14+v15+v16+v17+v18+v19+v20+v21+v22+v23+v24);}";

/// A program, and how many functions it has.
pub static PROGRAMS: [(&str, usize); 20] = [
    ("int main(void){}", 1),
    (
        "int main(void){write_word(-7/2);write_word(-7%2);return 0;}",
        1,
    ),
    (
        "int main(void){write_word(-1<1u);write_word(-8>>1u);write_word(1<<31);}",
        1,
    ),
    (
        "int main(void){write_word(2147483647+1);write_word(0x80000000);}",
        1,
    ),
    ("int main(void){write_word(5);write_word(1/0);}", 1),
    ("int main(void){1<<32;}", 1),
    (LONG, 2),
    (
        "int f(int n){if(n)return f(n-1);return 7;}int main(void){write_word(f(1022));}",
        2,
    ),
    (
        "int f(int n){if(n)return f(n-1);return 7;}int main(void){write_word(f(1023));}",
        2,
    ),
    ("int main(void){for(;;);write_word(1);}", 1),
    (
        "int main(void){if(0)if(1)write_word(1);else write_word(2);}",
        1,
    ),
    (
        "int a[3];int main(void){write_word(a[2]);write_word(a[3]);}",
        1,
    ),
    (
        "int a[3];int main(void){write_word(a[2]);write_word(a[-1]);}",
        1,
    ),
    (
        "int a[2];int f(void){a[0]=1;return 1;}int main(void){a[f()]+=a[0]+5;write_word(a[1]);}",
        2,
    ),
    (
        "int main(void){int i;for(i=0;i<2;i++){int x=x+1;write_word(x);}}",
        1,
    ),
    (
        "int main(void){write_word(read_word());write_word(read_word());return 3;}",
        1,
    ),
    (
        "int main(void){int i;while(i<3){write_word(i*i);i=i+1;}return i;}",
        1,
    ),
    ("int f(int a,int b){return a-b;}int main(void){}", 2),
    (
        "int main(void){int x=read_word();int y=x*7;write_word(x);}",
        1,
    ),
    (
        "int a[4];int g(int n){int i;for(i=0;i<n;i=i+1)a[i]=i*i;return a[n-1];}unsigned h(unsigned x){return x?x+h(x-1u):7u;}int main(void){write_word(g(4));return h(9u)>50u;}",
        3,
    ),
];
